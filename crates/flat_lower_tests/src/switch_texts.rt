//! Texts of C with switches (C17 6.8.4.2), and what they return.

/// A name, a text, and what it returns.
pub const SWITCHES: &[(&str, &str, i32)] = &[
    (
        "dense labels without default",
        "int f(int x) { int s = 1; switch (x) { case 3: s = 2; case 4: s = s * 10; break; case 5: s += 7; } return s; \
         } int main(void) { int i; int s = 0; for (i = 0; i < 9; i++) s = s * 3 + f(i); return s; }",
        15376,
    ),
    (
        "dense labels with default",
        "int f(int x) { int s = 1; switch (x) { case 0: s = 2; break; case 1: s = 3; case 2: s += 4; break; default: \
         s = 9; } return s; } int main(void) { int i; int s = 0; for (i = -2; i < 6; i++) s = s * 3 + f(i); return s; \
         }",
        27549,
    ),
    (
        "default before other labels",
        "int f(int x) { int s = 1; switch (x) { case 0: s = 2; default: s += 3; case 1: s = s * 2; } return s; } int \
         main(void) { int i; int s = 0; for (i = -2; i < 4; i++) s = s * 3 + f(i); return s; }",
        2912,
    ),
    (
        "labels from below 0",
        "int f(int x) { switch (x) { case -2: return 1; case -1: return 2; case 0: return 3; case 1: return 4; } \
         return 5; } int main(void) { int i; int s = 0; for (i = -4; i < 4; i++) s = s * 7 + f(i); return s; }",
        4728834,
    ),
    (
        "labels at the ends of int",
        "int f(int x) { switch (x) { case 2147483646: return 1; case 2147483647: return 2; } return 3; } int g(int x) \
         { switch (x) { case -2147483648: return 1; case -2147483647: return 2; default: return 3; } } int main(void) \
         { int m = 2147483647; return f(m - 2) * 10000000 + f(m - 1) * 1000000 + f(m) * 100000 + f(-m - 1) * 10000 + \
         g(m) * 1000 + g(-m - 1) * 100 + g(-m) * 10 + g(1 - m); }",
        31233123,
    ),
    (
        "labels through the greatest unsigned long",
        "int f(unsigned long x) { switch (x) { case 18446744073709551614ul: return 1; case 18446744073709551615ul: \
         return 2; case 0: return 3; case 1: return 4; default: return 5; } } int main(void) { unsigned long i; int s \
         = 0; for (i = -4; i != 4; i++) s = s * 7 + f(i); return s; }",
        4728834,
    ),
    (
        "labels of two powers of two",
        "int f(long x) { switch (x) { case 4294967296: return 1; case 4294967297: return 2; } return 3; } int \
         main(void) { return f(0) * 1000 + f(4294967296) * 100 + f(4294967297) * 10 + f(1); }",
        3123,
    ),
    (
        "labels down",
        "int f(int x) { int s = 0; switch (x) { case 3: s += 1; case 2: s += 10; case 1: s += 100; } return s; } int \
         main(void) { int i; int s = 0; for (i = 0; i < 6; i++) s = s * 3 + f(i); return s; }",
        12069,
    ),
    (
        "two labels of a section",
        "int f(int x) { int s = 0; switch (x) { case 1: case 2: s += 1; case 3: s += 10; break; case 4: s += 100; } \
         return s; } int main(void) { int i; int s = 0; for (i = 0; i < 6; i++) s = s * 3 + f(i); return s; }",
        1578,
    ),
    (
        "a continue in a dense switch in a loop",
        "int main(void) { int i; int s = 0; for (i = -1; i < 9; i++) { switch (i) { case 0: s += 1; continue; case 1: \
         s += 2; break; case 2: s += 3; case 3: s += 4; continue; case 4: s += 5; case 5: s += 6; case 6: break; \
         default: s += 9; } s = s * 2; } return s; }",
        2198,
    ),
    (
        "a dense switch in another",
        "int f(int x, int y) { int s = 0; switch (x) { case 0: switch (y) { case 0: s = 1; break; case 1: s = 2; \
         default: s += 3; } s += 10; break; case 1: switch (y) { case 4: s = 5; case 5: s += 6; } case 2: s += 20; } \
         return s; } int main(void) { int i; int j; int s = 0; for (i = -1; i < 4; i++) for (j = -1; j < 7; j++) s = \
         (s * 5 + f(i, j)) % 100003; return s; }",
        56880,
    ),
    (
        "a section falls through four others",
        "int main(void) { int i; int s = 0; for (i = -1; i < 11; i++) { switch (i) { case 0: s += 1; case 1: s += 2; \
         case 2: s += 3; case 3: s += 4; case 4: s += 5; case 5: s += 6; break; case 6: s += 7; case 7: s += 8; case \
         8: s += 9; default: s += 10; } s = s * 3 % 100003; } return s; }",
        7378,
    ),
    (
        "a switch with one label",
        "int f(int x) { switch (x) { case 7: return 1; } return 2; } int main(void) { return f(6) * 100 + f(7) * 10 + \
         f(8); }",
        212,
    ),
    (
        "the test of a switch is changed in it",
        "int main(void) { int x = 1; int s = 0; switch (x) { case 0: s += 1; case 1: x = 5; s += 2; case 2: s += x; } \
         return s * 10 + x; }",
        75,
    ),
    (
        "sections of one to seven labels",
        "int f(int x) { switch (x) { case 5: case 2: case 9: case 4: case 7: case 1: case 30: return 1; case 8: case \
         12: return 2; case 20: return 3; case 21: case 22: case 23: return 4; } return 5; } int main(void) { int i; \
         int s = 0; for (i = 0; i < 33; i++) s = (s * 7 + f(i)) % 10007; return s; }",
        6812,
    ),
    (
        "default among the labels of a section",
        "int f(int x) { int s = 0; switch (x) { case 6: s = 1; case 3: case 9: default: case 15: case 0: s += 2; \
         break; case 11: case 4: s += 5; } return s; } int main(void) { int i; int s = 0; for (i = -1; i < 18; i++) s \
         = (s * 11 + f(i)) % 10007; return s; }",
        8663,
    ),
];
