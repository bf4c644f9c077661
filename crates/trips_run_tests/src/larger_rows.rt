//! Texts of C with `short` and with arrays of two sizes, what they return, what the new forms cost, and what is
//! undefined.

// Arrays with two sizes: global, local, and as parameters.
pub(crate) const TWO_SIZES: &[(&str, &str)] = &[
    (
        "short t[2][3] = {{1, 2, 3}, {4}}; int main(void) { int i; int j; int s = 0; \
         for (i = 0; i < 2; i++) for (j = 0; j < 3; j++) s = s * 10 + t[i][j]; return s; }",
        "123400",
    ),
    (
        "int f(int n, short a[][2]) { a[1][1] = n; return a[0][0]; } int main(void) { short a[2][2]; a[0][0] = 3; \
         return f(4, a) * 10 + a[1][1]; }",
        "34",
    ),
    (
        "char c[][2] = {{1}, {2, 3}}; int main(void) { return c[0][1] * 100 + c[1][0] * 10 + c[1][1]; }",
        "23",
    ),
    (
        "long t[3][2] = {{1, -2}, {3,}, }; \
         int sum(long a[7][2]) { return a[0][0] + a[0][1] * 10 + a[1][0] * 100 + a[2][1] * 1000; } \
         int main(void) { t[2][1] = 5; return sum(t); }",
        "5281",
    ),
    (
        "int g(int a[][3], int i, int j) { return a[i][j]; } int h(int a[][3]) { a[1][2] += 2; return g(a, 1, 2); } \
         int main(void) { int a[2][3]; a[1][2] = 5; return h(a) * 10 + a[1][2]; }",
        "77",
    ),
    (
        "unsigned char t[2][4] = {{250, 251, 252, 253}, {254}}; int main(void) { int i; \
         for (i = 0; i < 4; i++) t[1][i] += t[0][i] + 10; \
         return t[1][0] * 1000000 + t[1][1] * 10000 + t[1][2] * 100 + t[1][3]; }",
        "2050607",
    ),
    (
        "int main(void) { int a[3][3]; int i; int j; \
         for (i = 0; i < 3; i++) for (j = 0; j < 3; j++) a[i][j] = i * 3 + j; \
         return a[a[0][1]][a[0][2]] * 100 + a[a[a[0][1] - 1][2]][a[0][a[0][0]]]; }",
        "506",
    ),
    (
        "int n; int k(int x) { n = n * 10 + x; return x; } int main(void) { int a[3][3]; a[k(1)][k(2)] = k(0); \
         a[k(2)][k(0)] = a[k(1)][k(2)]++; return n * 10 + a[1][2] + a[2][0]; }",
        "12020121",
    ),
    (
        "short t[2][2]; int main(void) { return (t[0][1] = 40000) + (t[1][0] = t[0][1] >> 1) + t[1][0]--; }",
        "-51072",
    ),
    (
        "int t[1][1] = {{4}}; int main(void) { return t[0][0]; }",
        "4",
    ),
    (
        "char t[1024][1024]; int main(void) { t[1023][1023] = 3; return t[1023][1023] + t[0][0]; }",
        "3",
    ),
    (
        "int t[2][2], u[4] = {1, 2, 3, 4}, v = 5; int main(void) { int a[2][2], b[2], c = 6; a[1][1] = b[1] = c; \
         return t[0][0] + u[3] + v + a[1][1]; }",
        "15",
    ),
    (
        "int f(int a[][2]); int f(int b[4][1 + 1]) { return b[0][1]; } int t[3][2] = {{1, 2}}; \
         int main(void) { return f(t); }",
        "2",
    ),
    (
        "int t[2][2]; int main(void) { \
         return t[0][t[0][t[0][t[0][t[0][t[0][t[0][t[0][t[0][t[0][t[0][t[0][t[0][t[0][t[0][0]]]]]]]]]]]]]]] + 3; }",
        "3",
    ),
];

// The two short types: promotions, conversions, and operators at the edges of their ranges.
pub(crate) const SHORTS: &[(&str, &str)] = &[
    ("int main(void) { short x = 40000; return x; }", "-25536"),
    (
        "int main(void) { short x = 32767; short y = 32767; return x * y; }",
        "1073676289",
    ),
    (
        "int main(void) { short x = 32767; short y = 1; return x + y; }",
        "32768",
    ),
    (
        "int main(void) { short x = -32768; short y = -1; return x / y; }",
        "32768",
    ),
    (
        "int main(void) { short x = -32768; short y = 1; return x - y; }",
        "-32769",
    ),
    (
        "int main(void) { short x = -1; short y = 1; return x >> y; }",
        "-1",
    ),
    (
        "int main(void) { short x = 1; short y = 15; return x << y; }",
        "32768",
    ),
    (
        "int main(void) { unsigned short x = 65535; unsigned short y = 1; return x + y; }",
        "65536",
    ),
    (
        "int main(void) { unsigned short x = 0; unsigned short y = 1; return x - y; }",
        "-1",
    ),
    (
        "int main(void) { unsigned short x = 65535; unsigned short y = 2; return x * y; }",
        "131070",
    ),
    (
        "int main(void) { unsigned short x = 65535; unsigned short y = 15; return x >> y; }",
        "1",
    ),
    (
        "int main(void) { unsigned short x = 65535; unsigned short y = 15; return x << y; }",
        "2147450880",
    ),
    (
        "int main(void) { unsigned short x = 5; unsigned short y = -1; return x < y; }",
        "1",
    ),
    (
        "int main(void) { unsigned short x = 65535; unsigned short y = -1; return x == y; }",
        "1",
    ),
    (
        "int main(void) { short x = 32767; x++; return x; }",
        "-32768",
    ),
    (
        "int main(void) { short x = -32768; return x-- - x; }",
        "-65535",
    ),
    (
        "int main(void) { unsigned short x = 65535; return ++x + x--; }",
        "0",
    ),
    (
        "int main(void) { short x = 32767; x += 1; x *= 2; return x; }",
        "0",
    ),
    (
        "int main(void) { unsigned short x = 40000; x <<= 1; return x; }",
        "14464",
    ),
    (
        "int main(void) { short x = -3; unsigned y = 1; return x * y < 5; }",
        "0",
    ),
    (
        "int main(void) { short x = -3; unsigned short y = 1; return x * y < 5; }",
        "1",
    ),
    (
        "int main(void) { unsigned short x = 1; return -x < 0; }",
        "1",
    ),
    ("int main(void) { unsigned short x = 0; return ~x; }", "-1"),
    (
        "short f(long x) { return x; } unsigned short g(int x) { return x; } \
         int main(void) { return f(65535 + 65536) * 1000000 + g(-1); }",
        "-934465",
    ),
    (
        "int main(void) { return (short) 65535 * 100000 + (unsigned short) -2 ; }",
        "-34466",
    ),
    (
        "signed short a = 1; short int b = 2; signed short int c = 3; unsigned short d = -1; \
         unsigned short int e = -2; short x[2] = {40000, -40000}; \
         int main(void) { return a + b + c + d + e + x[0] + x[1]; }",
        "131075",
    ),
    (
        "int main(void) { short s[3]; unsigned short t[3]; s[0] = -1; t[0] = -1; s[1] = 7; t[1] = 9; \
         return (s[0] == t[0]) * 1000 + s[0] * t[1] + s[1]; }",
        "-2",
    ),
    (
        "short s = -32768; int main(void) { s = -s; return s; }",
        "-32768",
    ),
    (
        "unsigned short s = 1; int main(void) { return s - 2 < 0; }",
        "1",
    ),
];

// A switch costs a step and each compared label of a case one; two indexes are two nodes.
pub(crate) const LARGER_COUNTED: &[(&str, &str)] = &[
    (
        "int main(void) { switch (2) { case 1: return 1; case 2: return 5; } }",
        "output 0\n\nresult 5\nsteps 8\n",
    ),
    (
        "int main(void) { switch (1) { } }",
        "output 0\n\nresult 0\nsteps 4\n",
    ),
    (
        "int main(void) { switch (1) { default: ; } }",
        "output 0\n\nresult 0\nsteps 5\n",
    ),
    (
        "int main(void) { switch (1) { case 1: ; } }",
        "output 0\n\nresult 0\nsteps 6\n",
    ),
    (
        "int main(void) { switch (3) { case 1: case 2: ; default: ; case 3: ; } }",
        "output 0\n\nresult 0\nsteps 8\n",
    ),
    (
        "int main(void) { switch (4) { case 1: case 2: ; default: ; case 3: ; } }",
        "output 0\n\nresult 0\nsteps 9\n",
    ),
    (
        "int main(void) { switch (1) { default: case 1: break; case 2: ; } }",
        "output 0\n\nresult 0\nsteps 6\n",
    ),
    (
        "int main(void) { switch (1 + 1) { case 2 + 0: { } } }",
        "output 0\n\nresult 0\nsteps 8\n",
    ),
    (
        "int main(void) { while (1) switch (1) { default: return 3; } }",
        "output 0\n\nresult 3\nsteps 8\n",
    ),
    (
        "int t[2][2]; int main(void) { t[1][0]; }",
        "output 0\n\nresult 0\nsteps 6\n",
    ),
    (
        "int t[2][2]; int main(void) { t[1][0] = 2; }",
        "output 0\n\nresult 0\nsteps 7\n",
    ),
    (
        "int t[2][2]; int main(void) { t[1][0]++; }",
        "output 0\n\nresult 0\nsteps 6\n",
    ),
    (
        "int t[2][2]; int main(void) { t[1][0] += 3; }",
        "output 0\n\nresult 0\nsteps 7\n",
    ),
    (
        "int main(void) { int t[2][2]; }",
        "output 0\n\nresult 0\nsteps 3\n",
    ),
    (
        "int main(void) { short x = 1; }",
        "output 0\n\nresult 0\nsteps 4\n",
    ),
    (
        "int f(int a[][2]) { return 4; } int t[1][2]; int main(void) { return f(t); }",
        "output 0\n\nresult 4\nsteps 9\n",
    ),
];

// An index outside its own dimension, an element that was not set, and operators at short types whose result no int
// holds.
pub(crate) const LARGER_UNDEFINED: &[&str] = &[
    "short t[2][3]; int main(void) { return t[0][3]; }",
    "short t[2][3]; int main(void) { return t[0][3]; }",
    "short t[2][3]; int main(void) { return t[2][0]; }",
    "short t[2][3]; int main(void) { return t[-1][0]; }",
    "short t[2][3]; int main(void) { return t[0][-1]; }",
    "short t[2][3]; int main(void) { return t[1][-1]; }",
    "short t[2][3]; int main(void) { return t[1][3] = 1; }",
    "short t[2][3]; int main(void) { return t[2][0]++; }",
    "short t[2][3]; int main(void) { return t[0][3] += 1; }",
    "short t[2][3]; int main(void) { return t[4294967296][0]; }",
    "short t[2][3]; int main(void) { return t[0][18446744073709551615u]; }",
    "int main(void) { int a[2][2]; a[0][0] = 1; return a[0][1]; }",
    "int f(int a[][2]) { return a[1][0]; } int t[1][2]; int main(void) { return f(t); }",
    "int main(void) { unsigned short x = 65535; return x * x; }",
    "int main(void) { unsigned short x = 65535; return x << 16; }",
    "int main(void) { short x = -1; return x << 1; }",
    "int main(void) { short x = 1; return x << 31; }",
    "int main(void) { int x; switch (2) { case 1: x = 3; } return x; }",
    "int f(void) { switch (1) { case 0: return 3; } } int main(void) { return f(); }",
    "int main(void) { int i; int s = 0; for (i = 0; i < 2; i++) switch (i) { case 0: { int x; x = 1; s += x; } \
     default: { int x; if (i == 1) s += x; } } return s; }",
];
