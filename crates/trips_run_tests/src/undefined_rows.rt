//! Texts that are undefined, each with its report: each reason, and of two the one that is met first.

pub(crate) const TOLD: &[(&str, &str)] = &[
    (
        "int main(void) { int x = 2147483647; return x + 1; }",
        "output 0\n\nundefined at 1:47: the sum 2147483647 + 1 is no int (C17 6.5p5)\n",
    ),
    (
        "int main(void) { long x = 9223372036854775807; return (int) (x + 1); }",
        "output 0\n\nundefined at 1:64: the sum 9223372036854775807 + 1 is no long (C17 6.5p5)\n",
    ),
    (
        "int main(void) { int x = -2147483647; return x - 2; }",
        "output 0\n\nundefined at 1:48: the difference -2147483647 - 2 is no int (C17 6.5p5)\n",
    ),
    (
        "int main(void) { unsigned short x = 65535; return x * x; }",
        "output 0\n\nundefined at 1:53: the product 65535 * 65535 is no int (C17 6.5p5)\n",
    ),
    (
        "int main(void) { int x = -2147483647 - 1; return -x; }",
        "output 0\n\nundefined at 1:50: the negation of -2147483648 is no int (C17 6.5p5)\n",
    ),
    (
        "int main(void) { int x = -2147483647 - 1; return x / -1; }",
        "output 0\n\nundefined at 1:52: the quotient -2147483648 / -1 is no int (C17 6.5.5p6)\n",
    ),
    (
        "int main(void) { int x = -2147483647 - 1; return x % -1; }",
        "output 0\n\nundefined at 1:52: the remainder -2147483648 % -1 has a quotient that is no int (C17 6.5.5p6)\n",
    ),
    (
        "int main(void) { int x = 0; return 7 / x; }",
        "output 0\n\nundefined at 1:38: the quotient 7 / 0 divides by a zero of type int (C17 6.5.5p5)\n",
    ),
    (
        "int main(void) { unsigned x = 0; return (int) (7 % x); }",
        "output 0\n\nundefined at 1:50: the remainder 7 % 0 divides by a zero of type unsigned int (C17 6.5.5p5)\n",
    ),
    (
        "int main(void) { int x = 32; return 1 << x; }",
        "output 0\n\nundefined at 1:39: the shift 1 << 32 has a count outside the width of int (C17 6.5.7p3)\n",
    ),
    (
        "int main(void) { int x = -1; return 1 >> x; }",
        "output 0\n\nundefined at 1:39: the shift 1 >> -1 has a count outside the width of int (C17 6.5.7p3)\n",
    ),
    (
        "int main(void) { int x = -1; return x << 40; }",
        "output 0\n\nundefined at 1:39: the shift -1 << 40 has a count outside the width of int (C17 6.5.7p3)\n",
    ),
    (
        "int main(void) { int x = -1; return x << 3; }",
        "output 0\n\nundefined at 1:39: the shift -1 << 3 is of a negative int (C17 6.5.7p4)\n",
    ),
    (
        "int main(void) { int x = 1; return x << 31; }",
        "output 0\n\nundefined at 1:38: the shift 1 << 31 is no int (C17 6.5.7p4)\n",
    ),
    (
        "int main(void) { unsigned long x = 1; return (int) (x << 64); }",
        "output 0\n\nundefined at 1:55: the shift 1 << 64 has a count outside the width of unsigned long (C17 6.5.7p3)\n",
    ),
    (
        "int main(void) { int x = 2147483647; x++; return x; }",
        "output 0\n\nundefined at 1:39: the sum 2147483647 + 1 is no int (C17 6.5p5)\n",
    ),
    (
        "int main(void) { int x = -2147483647; x -= 2; return x; }",
        "output 0\n\nundefined at 1:41: the difference -2147483647 - 2 is no int (C17 6.5p5)\n",
    ),
    (
        "int main(void) { int x; return x; }",
        "output 0\n\nundefined at 1:32: a value is taken that was never set (C17 6.3.2.1p2)\n",
    ),
    (
        "int main(void) { int a[3]; a[0] = 1; return a[1]; }",
        "output 0\n\nundefined at 1:45: a value is taken that was never set (C17 6.3.2.1p2)\n",
    ),
    (
        "int a[3]; int main(void) { int i = 3; return a[i]; }",
        "output 0\n\nundefined at 1:46: the index 3 is outside its array of 3 (C17 6.5.6p8)\n",
    ),
    (
        "int a[3]; int main(void) { int i = -1; a[i] = 1; return 0; }",
        "output 0\n\nundefined at 1:45: the index -1 is outside its array of 3 (C17 6.5.6p8)\n",
    ),
    (
        "int a[2][3]; int main(void) { int i = 3; return a[0][i]; }",
        "output 0\n\nundefined at 1:49: an index is outside its dimension of an array of 6 in rows of 3 (C17 6.5.6p8)\n",
    ),
    (
        "int f(void) { } int main(void) { return f(); }",
        "output 0\n\nundefined: a value is taken of a call that returned none (C17 6.9.1p12)\n",
    ),
    (
        "int main(void) { int x = 0; return 0 && 1 / x || 1 && 1 / x; }",
        "output 0\n\nundefined at 1:57: the quotient 1 / 0 divides by a zero of type int (C17 6.5.5p5)\n",
    ),
    (
        "int main(void) { int x = 0; return (x, 1) ? 2147483647 + (x + 1) : 1 / x; }",
        "output 0\n\nundefined at 1:56: the sum 2147483647 + 1 is no int (C17 6.5p5)\n",
    ),
    (
        "int main(void) { int x = 0; return (1 << 31 - x) + 1 / x; }",
        "output 0\n\nundefined at 1:39: the shift 1 << 31 is no int (C17 6.5.7p4)\n",
    ),
    (
        "int main(void) { int x = 0; return 1 / x + (1 << 31 - x); }",
        "output 0\n\nundefined at 1:38: the quotient 1 / 0 divides by a zero of type int (C17 6.5.5p5)\n",
    ),
    (
        "#include <stdio.h>\nint main(void) { int x = 0; putchar(97); putchar(98); return 5 / x; }",
        "output 2\nab\nundefined at 2:64: the quotient 5 / 0 divides by a zero of type int (C17 6.5.5p5)\n",
    ),
    (
        "#include <stdio.h>\nint f(int x) {\n  return 1 / x;\n}\nint g(void) { return 1 + f(0); }\nint main(void) { return g(); }",
        "output 0\n\nundefined at 3:12: the quotient 1 / 0 divides by a zero of type int (C17 6.5.5p5), called at 5:26, called at 6:25\n",
    ),
    (
        "int f(int x) { return x; }\nint main(void) { int x = 0; return f(1 / x); }",
        "output 0\n\nundefined at 2:40: the quotient 1 / 0 divides by a zero of type int (C17 6.5.5p5)\n",
    ),
    (
        "int f(void) { } int g(void) { return f(); } int main(void) { return g(); }",
        "output 0\n\nundefined at 1:69: a value is taken of a call that returned none (C17 6.9.1p12), called at 1:69\n",
    ),
    (
        "int f(int n) { return n ? f(n - 1) : 1 / n; } int main(void) { return f(1); }",
        "output 0\n\nundefined at 1:40: the quotient 1 / 0 divides by a zero of type int (C17 6.5.5p5), called at 1:27, called at 1:71\n",
    ),
    (
        "#include <string.h>\nint main(void) { char s[3]; s[0] = 1; return (int) strlen(s); }",
        "output 0\n\nundefined at 1:1: a value is taken that was never set (C17 6.3.2.1p2), called at 2:52\n",
    ),
];
