//! Texts of C with what the evaluation says of them, which several tests take.

// Texts and their reports. A statement, a declarator and a node cost a step each, and a call one
// more; groups and conversions cost none.
pub(crate) const COUNTED: &[(&str, &str)] = &[
    (
        "int main(void) { return 7; }",
        "output 0\n\nresult 7\nsteps 4\n",
    ),
    ("int main(void) { }", "output 0\n\nresult 0\nsteps 2\n"),
    (
        "int n; int main(void) { if (n == 0) { n = 1; return main() + 5; } }",
        "output 0\n\nresult 5\nsteps 20\n",
    ),
    ("int main(void) { ; }", "output 0\n\nresult 0\nsteps 3\n"),
    (
        "int main(void) { int x; }",
        "output 0\n\nresult 0\nsteps 3\n",
    ),
    (
        "int main(void) { int x = 1; }",
        "output 0\n\nresult 0\nsteps 4\n",
    ),
    (
        "int main(void) { long x = 1; }",
        "output 0\n\nresult 0\nsteps 4\n",
    ),
    ("int main(void) { (7); }", "output 0\n\nresult 0\nsteps 4\n"),
    (
        "int main(void) { (char) 7; }",
        "output 0\n\nresult 0\nsteps 5\n",
    ),
    ("int main(void) { -7; }", "output 0\n\nresult 0\nsteps 5\n"),
    (
        "int main(void) { 1 + 2; }",
        "output 0\n\nresult 0\nsteps 6\n",
    ),
    (
        "int main(void) { 0 && 1; }",
        "output 0\n\nresult 0\nsteps 5\n",
    ),
    (
        "int main(void) { 1 && 1; }",
        "output 0\n\nresult 0\nsteps 6\n",
    ),
    (
        "int main(void) { 1 ? 2 : 3; }",
        "output 0\n\nresult 0\nsteps 6\n",
    ),
    (
        "int main(void) { 1, 2; }",
        "output 0\n\nresult 0\nsteps 6\n",
    ),
    (
        "int main(void) { int x; x = 1; }",
        "output 0\n\nresult 0\nsteps 6\n",
    ),
    (
        "int main(void) { int x = 1; x += 1; }",
        "output 0\n\nresult 0\nsteps 7\n",
    ),
    (
        "int main(void) { int x = 1; x++; }",
        "output 0\n\nresult 0\nsteps 6\n",
    ),
    (
        "int a[2]; int main(void) { a[1] = 2; }",
        "output 0\n\nresult 0\nsteps 6\n",
    ),
    (
        "int main(void) { while (0) ; }",
        "output 0\n\nresult 0\nsteps 4\n",
    ),
    (
        "int main(void) { do ; while (0); }",
        "output 0\n\nresult 0\nsteps 5\n",
    ),
    (
        "int main(void) { for (;;) break; }",
        "output 0\n\nresult 0\nsteps 4\n",
    ),
    (
        "int main(void) { if (1) ; else ; }",
        "output 0\n\nresult 0\nsteps 5\n",
    ),
    (
        "int f(void) { return 1; } int main(void) { f(); }",
        "output 0\n\nresult 0\nsteps 8\n",
    ),
    (
        "#include <stdio.h>\nint main(void) { EOF; }",
        "output 0\n\nresult 0\nsteps 4\n",
    ),
    (
        "#include <stdio.h>\nint main(void) { getchar(); }",
        "output 0\n\nresult 0\nsteps 5\n",
    ),
];

// Texts with how their reports begin.
pub(crate) const ENDED: &[(&str, &str)] = &[
    (
        "int main(void) { return -7 / 2 * 10 + -7 % 2; }",
        "output 0\n\nresult -31\nsteps 14\n",
    ),
    (
        "int main(void) { long x = -1; unsigned int y = 1; \
         return (0u - 1 > 0) * 2 + (x - y < 0); }",
        "output 0\n\nresult 3\nsteps 21\n",
    ),
    (
        "int main(void) { int a = 0; int b = 1; int x = 5; \
         if (a) if (b) x = 1; else x = 2; return x; }",
        "output 0\n\nresult 5\nsteps 12\n",
    ),
    (
        "long a[9]; int main(void) { int i; a[0] = 1; \
         for (i = 1; i < 9; i++) a[i] = a[i - 1] * 2; return (int) a[8]; }",
        "output 0\n\nresult 256\nsteps ",
    ),
    (
        "int main(void) { int i; int s = 0; for (i = 4; i != 0; i--) s += 24 / i; return s; }",
        "output 0\n\nresult 50\nsteps 49\n",
    ),
    (
        "int main(void) { return (int) (1u << 31 >> 31); }",
        "output 0\n\nresult 1\nsteps 9\n",
    ),
    (
        "#include <stdio.h>\nint main(void) { putchar('a'); putchar(10); return EOF; }",
        "output 2\na\n\nresult -1\nsteps ",
    ),
    (
        "int f(void) { } int main(void) { f(); return 3; }",
        "output 0\n\nresult 3\nsteps ",
    ),
];

// Expressions that are undefined, each before one just inside its range, with its value.
pub(crate) const EDGES: &[(&str, &str, &str)] = &[
    ("2147483647 + 1", "2147483646 + 1", "2147483647"),
    ("-2147483647 - 2", "-2147483647 - 1", "-2147483648"),
    ("46341 * 46341", "46340 * 46340", "2147395600"),
    ("-(-2147483647 - 1)", "-(-2147483647)", "2147483647"),
    ("1 / 0", "1 / 1", "1"),
    ("1 % 0", "1 % 1", "0"),
    ("(-2147483647 - 1) / -1", "-2147483647 / -1", "2147483647"),
    ("(-2147483647 - 1) % -1", "-2147483647 % -1", "0"),
    ("1 << 32", "1 << 30", "1073741824"),
    ("1 << -1", "1 << 0", "1"),
    ("1 << 31", "-1 >> 31", "-1"),
    ("-1 << 0", "0 << 31", "0"),
    ("1 >> 32", "1 >> 31", "0"),
    (
        "(int) (9223372036854775807 + 1)",
        "(int) (9223372036854775806 + 1)",
        "-1",
    ),
    ("(int) (1L << 63)", "(int) (1L << 62 >> 62)", "1"),
];

// Texts that are undefined, each before one that is not and has result 3.
pub(crate) const UNSET: &[(&str, &str)] = &[
    (
        "int main(void) { int x; return x; }",
        "int main(void) { int x = 3; return x; }",
    ),
    (
        "int main(void) { int x; x; return 3; }",
        "int main(void) { int x; ; return 3; }",
    ),
    (
        "int a[2]; int main(void) { return a[2]; }",
        "int a[2]; int main(void) { return a[1] + 3; }",
    ),
    (
        "int a[2]; int main(void) { return a[-1]; }",
        "int a[2]; int main(void) { return a[0] + 3; }",
    ),
    (
        "long a[8]; int main(void) { int i; a[0] = 1; \
         for (i = 1; i < 9; i++) a[i] = a[i - 1] * 2; return (int) a[8]; }",
        "long a[9]; int main(void) { int i; a[0] = 1; \
         for (i = 1; i < 9; i++) a[i] = a[i - 1] * 2; return (int) a[8] - 253; }",
    ),
    (
        "int main(void) { int a[2]; a[0] = 3; return a[1]; }",
        "int main(void) { int a[2]; a[0] = 3; return a[0]; }",
    ),
    (
        "int main(void) { int i; int s = 0; \
         for (i = 0; i < 3; i++) { int x; if (i == 0) x = 1; s += x; } return s; }",
        "int main(void) { int i; int s = 0; \
         for (i = 0; i < 3; i++) { int x; if (i >= 0) x = 1; s += x; } return s; }",
    ),
    (
        "int f(int x) { if (x) return 3; } int main(void) { return f(0); }",
        "int f(int x) { if (x) return 3; } int main(void) { return f(1); }",
    ),
    (
        "int f(void) { } int main(void) { return 1 + f(); }",
        "int f(void) { } int main(void) { return f(), 3; }",
    ),
];

pub(crate) const WORDS: &str = "#include <stdio.h>
int main(void) {
  int c; int in = 0; int words = 0;
  while ((c = getchar()) != EOF) {
    if (c == ' ' || c == '\\n' || c == '\\t') in = 0;
    else if (!in) { in = 1; words++; }
  }
  putchar('0' + words); putchar('\\n');
  return words;
}
";

// The frames of 6,897 calls and of `main` fill a mebibyte, and eight bytes more do not fit.
pub(crate) const DEEP: &str = "int f(int n) { if (n == 0) return 0; return f(n - 1) + 1; } \
     int main(void) { char pad[88]; return f(6896); }";

pub(crate) const DEEPER: &str = "int f(int n) { if (n == 0) return 0; return f(n - 1) + 1; } \
     int main(void) { char pad[89]; return f(6896); }";
