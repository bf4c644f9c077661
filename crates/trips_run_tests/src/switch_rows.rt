//! Texts of C with switches (C17 6.8.4.2), and what they return.

// Sections, switches in switches and in loops, case values at the type of the test, `EOF` in constants.
pub(crate) const SWITCHES: &[(&str, &str)] = &[
    (
        "int f(int x) { int s = 0; switch (x) { case 1: s = 1; case 2: s = s + 10; break; default: s = 100; \
         case 7: s = s + 3; } return s; } \
         int main(void) { return f(1) * 1000000 + f(2) * 10000 + f(7) * 1000 + f(5); }",
        "11103103",
    ),
    (
        "int f(int x) { int s = 0; switch (x) { default: s = 1; case 3: s += 10; break; case 4: s = 5; } return s; } \
         int main(void) { return f(3) + 100 * f(4) + 10000 * f(9); }",
        "110510",
    ),
    (
        "int f(int x) { int s = 0; switch (x) { case 3: s += 10; case 4: s += 5; default: s += 1; } return s; } \
         int main(void) { return f(3) + 100 * f(4) + 10000 * f(9); }",
        "10616",
    ),
    (
        "int f(int x) { int s = 0; switch (x) { case 1: case 2: case 3: s = 7; break; \
         case 4: case 5: default: s = 8; } return s; } \
         int main(void) { return f(1) + 10 * f(3) + 100 * f(4) + 1000 * f(6); }",
        "8877",
    ),
    (
        "int f(int x) { int s = 0; switch (x) { default: s = 4; } return s; } \
         int main(void) { return f(0) * 10 + f(5); }",
        "44",
    ),
    (
        "int f(int x) { int s = 0; switch (s = x, x + 1) { } s++; return s; } int main(void) { return f(6); }",
        "7",
    ),
    (
        "int f(int x) { int s = 0; switch (x++) { case 6: s = 1; } s += x; return s; } int main(void) { return f(6); \
         }",
        "8",
    ),
    (
        "int f(int x) { int s = 0; switch (x) { case 1: if (s) s = 1; else s = 2; case 2: { int s = 9; s++; } \
         case 3: ; } return s; } int main(void) { return f(1) * 10 + f(2); }",
        "20",
    ),
    (
        "int f(int x) { int s = 0; switch (x) { case 1: while (s < 4) s++; s *= 2; break; case 2: do s += 3; \
         while (s < 5); break; case 3: for (s = 0; ; s++) if (s == 9) break; s += 20; } return s; } \
         int main(void) { return f(1) * 10000 + f(2) * 100 + f(3); }",
        "80629",
    ),
    (
        "int f(int x) { int s = 0; switch (x) { case 0: s = 1; break; s = 2; case 1: s += 3; break; ; } return s; } \
         int main(void) { return f(0) * 10 + f(1); }",
        "13",
    ),
    (
        "int f(int x) { int s = 0; switch (x) { case 5: return 1; default: return 2; case 6: return 3; } return s; } \
         int main(void) { return f(5) * 100 + f(6) * 10 + f(7); }",
        "132",
    ),
    (
        "int f(int x) { int s = 0; if (x) switch (x) { case 1: s = 1; } else s = 2; return s; } \
         int main(void) { return f(0) * 10 + f(1); }",
        "21",
    ),
    (
        "int main(void) { switch (1) { case 1: switch (2) { case 2: break; default: return 9; } return 5; } \
         return 7; }",
        "5",
    ),
    (
        "int f(int x) { int s = 0; switch (x / 10) { case 0: s = 1; switch (x % 10) { default: s += 2; \
         case 4: s += 4; break; case 5: s += 8; } s += 16; case 1: s += 32; break; \
         case 2: switch (x) { case 20: s = 5; case 21: s += 6; } } return s; } int main(void) { return f(4); }",
        "53",
    ),
    (
        "int f(int x) { int s = 0; switch (x / 10) { case 0: s = 1; switch (x % 10) { default: s += 2; \
         case 4: s += 4; break; case 5: s += 8; } s += 16; case 1: s += 32; break; \
         case 2: switch (x) { case 20: s = 5; case 21: s += 6; } } return s; } \
         int main(void) { return f(5) * 1000000 + f(9) * 10000 + f(20) * 100 + f(22); }",
        "57551100",
    ),
    (
        "int f(int x) { int s = 0; switch (x) { case 1: switch (x) { case 1: switch (x) { case 1: s = 1; break; } \
         s += 2; break; } s += 4; break; } s += 8; return s; } int main(void) { return f(1); }",
        "15",
    ),
    (
        "int main(void) { int i; int s = 0; for (i = 0; i < 6; i++) { switch (i) { case 1: continue; case 4: break; \
         default: s += 1; } s += 10; } return s; }",
        "54",
    ),
    (
        "int main(void) { int i = 0; int s = 0; while (i++ < 6) { switch (i) { case 2: case 3: continue; \
         case 5: s += 100; break; } s += i; } return s; }",
        "116",
    ),
    (
        "int main(void) { int i = 0; int s = 0; do { switch (i) { default: s++; case 3: continue; case 5: s += 100; \
         } s += 10; } while (i++ < 6); return s; }",
        "115",
    ),
    (
        "int main(void) { int i; int s = 0; for (i = 0; i < 9; i++) switch (i) { case 7: s += 1000; break; \
         case 8: return s; default: s += i; } }",
        "1021",
    ),
    (
        "int main(void) { int i; int j; int s = 0; \
         for (i = 0; i < 4; i++) { switch (i) { case 1: for (j = 0; j < 5; j++) { switch (j) { case 1: continue; \
         case 3: break; default: s += 1; } if (j == 3) break; s += 10; } s += 100; continue; \
         case 2: for (j = 0; j < 3; j++) if (j == 1) continue; else s += 1000; break; default: s += 10000; } \
         s += 100000; } return s; }",
        "322122",
    ),
    (
        "int main(void) { int i; int s = 0; for (i = 0; i < 5; i++) { switch (i) { default: switch (i) { \
         case 2: continue; case 3: break; default: s += 1; } s += 10; case 9: ; } s += 100; } return s; }",
        "443",
    ),
    (
        "int main(void) { int i; int s = 0; for (i = 0; i < 3; i++) { switch (0) { case 0: switch (1) { \
         case 1: switch (i) { case 1: continue; } } } s += i + 1; } return s; }",
        "4",
    ),
    (
        "int main(void) { int i; int s = 0; for (i = -1; i < 13; i++) { switch (i) { case 0: s += 1; case 1: s += 2; \
         break; case 2: case 3: s += 3; case 4: s += 4; continue; case 5: s += 5; case 9: s += 6; case 7: s += 7; \
         break; case 8: s += 8; case 6: ; } s = s * 3 % 10007; } return s; }",
        "487",
    ),
    (
        "int f(int n) { switch (n) { case 0: return 1; default: return n * f(n - 1); } } \
         int main(void) { return f(7); }",
        "5040",
    ),
    (
        "int f(int x) { int s = 0; switch ((unsigned) x) { case -1: s = 1; break; case 3: s = 2; } return s; } \
         int main(void) { return f(-1) * 10 + f(3); }",
        "12",
    ),
    (
        "int f(int x) { int s = 0; switch ((char) x) { case -56: s = 1; break; case 200: s = 2; } return s; } \
         int main(void) { return f(200); }",
        "1",
    ),
    (
        "int f(int x) { int s = 0; switch ((unsigned char) x) { case -1: s = 1; break; case 255: s = 2; } return s; \
         } int main(void) { return f(-1); }",
        "2",
    ),
    (
        "int f(int x) { int s = 0; switch ((long) x * 4) { case 4294967296: s = 1; break; case 0: s = 2; } return s; \
         } int main(void) { return f(1073741824) * 10 + f(0); }",
        "12",
    ),
    (
        "int f(int x) { int s = 0; switch (x) { case 4294967297: s = 1; break; case 0x80000000: s = 2; } return s; } \
         int main(void) { return f(1) * 10 + f(-2147483647 - 1); }",
        "12",
    ),
    (
        "int f(int x) { int s = 0; switch (0ul + x) { case -1: s = 1; break; case 1: s = 2; } return s; } \
         int main(void) { return f(-1) * 10 + f(1); }",
        "12",
    ),
    (
        "int f(int x) { int s = 0; switch ((short) x) { case 65535: s = 1; break; case -1: s = 2; } return s; } \
         int main(void) { return f(65535); }",
        "2",
    ),
    (
        "int f(int x) { int s = 0; switch ((unsigned short) x) { case 65535: s = 1; break; case -1: s = 2; } \
         return s; } int main(void) { return f(-1); }",
        "1",
    ),
    (
        "int f(int x) { int s = 0; switch (x) { case 1 + 2: s = 1; break; case 'a': s = 2; break; \
         case (char) 300: s = 3; break; case 3 > 2 ? 5 : 6: s = 4; break; case 010: s = 5; break; case ~0: s = 6; } \
         return s; } int main(void) { return f(3) * 100000 + f(97) * 10000 + f(44) * 1000 + f(5) * 100 + f(8) * 10 + \
         f(-1); }",
        "123456",
    ),
    (
        "#include <stdio.h>\nint a[EOF + 3] = {EOF, EOF * 2}; int e = -EOF; \
         int f(int x) { switch (x) { case EOF: return 7; case -EOF: return 8; } return 9; } \
         int main(void) { return a[0] + a[1] + e * 10 + f(getchar()) * 100 + f(1) * 1000; }",
        "8707",
    ),
    (
        "int f(int n) { switch (n) { case 0: return 0; } return f(n - 1); } int main(void) { return f(6551); }",
        "0",
    ),
    (
        "int main(void) { int i; int s = 0; for (i = 0; i < 4; i++) if (i & 1) switch (i) { case 1: continue; \
         default: s += 7; break; } else s++; return s; }",
        "9",
    ),
    (
        "int f(void) { switch (1) { case 0: return 3; } } int main(void) { f(); return 4; }",
        "4",
    ),
    (
        "void f(int x) { switch (x) { case 1: return; } } int main(void) { f(1); f(2); return 4; }",
        "4",
    ),
    (
        "int main(void) { switch (1) { case 1: for (;;) { switch (2) { case 2: break; } break; } } return 6; }",
        "6",
    ),
    (
        "int main(void) { int i = 0; do switch (i) { case 0: continue; default: break; } while (i++ < 3); return i; \
         }",
        "4",
    ),
    (
        "char x = 5; int main(void) { switch (x--) { case 5: switch (x) { case 4: return 9; } } return 1; }",
        "9",
    ),
    (
        "unsigned u = 4294967295u; int main(void) { switch (u) { case -1l: return 1; } return 0; }",
        "1",
    ),
    (
        "unsigned u = 4294967295u; int main(void) { switch (u + 0l) { case -1: return 1; case 4294967295: return 2; \
         } return 0; }",
        "2",
    ),
    (
        "int main(void) { int x; switch (1) { case 1: x = 3; } return x; }",
        "3",
    ),
];
