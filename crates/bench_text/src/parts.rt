//! The parts of the text that are the same for every function.

ghost use Rattle.std.specs.Prelude.{◌≡◌};
ghost use Rattle.bench_text.specs.Text.{head, function_name, function_body, function_end};
ghost use Rattle.bench_text.specs.Text.{main_head, call_name, call_end, main_end};

/// What stands above the functions.
#[tactic(auto, unfolding(crate::specs::Text::head))]
pub fn head_part() -> &'static [u8]
    ensures { result.now ≡ head }
{
    b"#include <stdio.h>\nlong a[16];\n"
}

/// A function's text up to its number.
#[tactic(auto, unfolding(crate::specs::Text::function_name))]
pub fn function_name_part() -> &'static [u8]
    ensures { result.now ≡ function_name }
{
    b"long f"
}

/// A function's text from its number to its number again.
#[tactic(auto, unfolding(crate::specs::Text::function_body))]
pub fn function_body_part() -> &'static [u8]
    ensures { result.now ≡ function_body }
{
    b"(long x) { long i; for (i = 0; i < 16; i = i + 1) a[i] = x + i; \
        for (i = 1; i < 16; i = i + 1) a[i] = a[i] + a[i - 1]; return a[15] + "
}

/// The end of a function's text.
#[tactic(auto, unfolding(crate::specs::Text::function_end))]
pub fn function_end_part() -> &'static [u8]
    ensures { result.now ≡ function_end }
{
    b"; }\n"
}

/// What stands between the functions and the calls.
#[tactic(auto, unfolding(crate::specs::Text::main_head))]
pub fn main_head_part() -> &'static [u8]
    ensures { result.now ≡ main_head }
{
    b"int main(void) { long x = 1;\n"
}

/// A call's text up to the number of its function.
#[tactic(auto, unfolding(crate::specs::Text::call_name))]
pub fn call_name_part() -> &'static [u8]
    ensures { result.now ≡ call_name }
{
    b"x = f"
}

/// The end of a call's text.
#[tactic(auto, unfolding(crate::specs::Text::call_end))]
pub fn call_end_part() -> &'static [u8]
    ensures { result.now ≡ call_end }
{
    b"(x) % 1000; putchar(65 + (int) (x % 26));\n"
}

/// The end of main.
#[tactic(auto, unfolding(crate::specs::Text::main_end))]
pub fn main_end_part() -> &'static [u8]
    ensures { result.now ≡ main_end }
{
    b"return (int) x; }\n"
}
