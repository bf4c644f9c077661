//! What is refused of switches, of the short types and of arrays with two sizes.

// Bodies of `main` that the grammar refuses: labels elsewhere than in a switch's own braces, declarations directly in
// them, lists.
pub(crate) const SYNTAX_BODIES: &[&str] = &[
    "case 0: ;",
    "default: ;",
    "switch (0) { case 0: { case 1: ; } }",
    "switch (0) { case 0: if (1) case 1: ; }",
    "switch (0) { case 0: if (1) ; else default: ; }",
    "switch (0) { case 0: while (1) case 1: ; }",
    "switch (0) { ; case 0: ; }",
    "switch (0) { case 0: }",
    "switch (0) { case 0: case 1: }",
    "switch (0) case 0: ;",
    "switch (0) ;",
    "switch () { }",
    "switch 0 { }",
    "switch (0) { case : ; }",
    "switch (0) { case 0, 1: ; }",
    "switch (0) { case 0; }",
    "switch (0) { default 0: ; }",
    "switch (0) { default: ",
    "switch (0) { int x; }",
    "switch (0) { int x; case 0: ; }",
    "switch (0) { case 0: int x; }",
    "switch (0) { case 0: ; int x; }",
    "switch (0) { case 0: short x = 1; }",
    "switch (int x) { }",
    "int x = 0; switch (0) { case x = 1: ; }",
    "int t[2] = {};",
    "int t[2][2] = {1, 2};",
    "int t[][2];",
    "int t[2][];",
    "short long x;",
    "return (short long) 1;",
    "return t[0][0][0];",
    "return (short int long) 1;",
];

// Items that the grammar refuses: lists that do not fit their sizes, sizes left out, words of a type.
pub(crate) const SYNTAX_ITEMS: &[&str] = &[
    "int t[2][2] = {1, 2, 3, 4};",
    "int t[2][2] = {{1, 2}, 3};",
    "int t[2][2] = {};",
    "int t[2][2] = {{}};",
    "int t[2][2] = {{1}, };;",
    "int t[][] = {{1}};",
    "int t[2][] = {{1}};",
    "int t[][2];",
    "int t[2] = {{1}};",
    "int t[2][2] = 1;",
    "int t[2][2][2];",
    "int t[] = {{1}};",
    "int f(int a[][]) { return 0; }",
    "int f(int a[2][]) { return 0; }",
    "int f(int a[][2][2]) { return 0; }",
    "short long x;",
    "long short x;",
    "short char x;",
    "char short x;",
    "char short x;",
    "short unsigned signed x;",
    "short short x;",
    "short short x;",
    "short int int x;",
    "unsigned short long x;",
    "unsigned int short int x;",
    "signed unsigned short x;",
    "short char unsigned x;",
    "short void x;",
    "short;",
    "case x;",
];

// What the bodies of MISMATCHED see.
pub(crate) const HEAD: &str =
    "int t[2]; int u[2][2]; int f(void) { return 0; } void v(void) { } int g(int a[]) { return a[0]; } \
     int h(int a[][3]) { return a[0][0]; } int k(short a[][2]) { return a[0][0]; } \
     int m(unsigned a[][2]) { return a[0][0]; } ";

// Bodies of `main` behind HEAD: jumps that leave nothing, case values that are no constants, rows, and numbers of
// indexes.
pub(crate) const MISMATCHED: &[&str] = &[
    "switch (0) { case 0: continue; }",
    "break;",
    "continue;",
    "int x = 0; switch (0) { case x: ; }",
    "switch (0) { case 1 / 0: ; }",
    "switch (0) { case 2147483647 + 1: ; }",
    "switch (0) { case t[0]: ; }",
    "switch (0) { case f(): ; }",
    "switch (t) { }",
    "switch (v()) { }",
    "switch (f) { }",
    "return t[0][0];",
    "return u[0];",
    "return u;",
    "u = t;",
    "u[0] = 1;",
    "u[0]++;",
    "return g(u[0]);",
    "return g(u);",
    "return h(t);",
    "return h(u);",
    "return k(u);",
    "return m(u);",
    "int a[2][0];",
    "int a[0][2];",
    "int a[-1][1];",
    "int n = 2; int a[n][2];",
    "int n = 2; int a[2][n];",
    "switch (0) { case 0: switch (0) { case 0: continue; } }",
    "switch (0) { case (v(), 1): ; }",
];

// Items: sizes of 0, too many rows or values, types that do not agree.
pub(crate) const MISMATCHED_ITEMS: &[&str] = &[
    "int t[1][1] = {{1, 2}};",
    "int t[1][2] = {{1}, {2}};",
    "int t[2][1] = {{1}, {1, 2}};",
    "int t[][1] = {{1, 2}};",
    "int t[0][1];",
    "int t[1][0] = {{1}};",
    "int t[][0] = {{1}};",
    "int f(int a[][3]); int f(int a[][4]) { return 0; }",
    "int f(int a[][3]); int f(int a[3]) { return 0; }",
    "int f(short a); int f(int a) { return 0; }",
    "int f(short a[][2]); int f(unsigned short a[][2]) { return 0; }",
    "int f(int n, int a[][n]) { return 0; }",
    "int f(int a[][0]) { return 0; }",
    "int t[2][2] = {{1, 1 / 0}};",
];

// Bodies of `main` with a label or a name that was there before.
pub(crate) const TWICE: &[&str] = &[
    "switch (1) { case 1: case 1: ; }",
    "switch (0) { case 0: ; case 0: ; }",
    "switch (0) { case 0: ; case 1: ; case 1 - 1: ; }",
    "switch (0u) { case -1: case 4294967295u: ; }",
    "switch (0) { default: default: ; }",
    "switch (0) { default: ; case 0: ; default: ; }",
    "switch (0) { case 0: case 4294967296: ; }",
    "switch ((short) 0) { case 65536: case 4295032832: ; }",
    "switch (0) { case 'a': case 97: ; }",
    "switch (0) { case 0: switch (0) { case 0: ; } case 0: ; }",
    "switch (0) { case 0: { int x; int x[2][2]; } }",
];

// Bodies of `main` with a name that is not in scope.
pub(crate) const UNKNOWN: &[&str] = &[
    "switch (0) { case y: ; }",
    "switch (y) { }",
    "switch (0) { case EOF: ; }",
    "int a[y][2];",
    "int a[2][y];",
    "return y[0][0];",
    "switch (0) { case 0: { int x; } case 1: x = 1; }",
];

// Items with too many bytes.
pub(crate) const TOO_LARGE: &[&str] = &[
    "char t[4294967296][4294967296];",
    "char t[1024][1025];",
    "short t[1024][513];",
    "int t[512][513];",
    "long t[1][131073];",
    "unsigned short t[4294967295][4294967295];",
    "char t[1024][1024]; char c;",
    "int f(char a[][1048577]) { return 0; }",
    "int f(int a[][4294967296]);",
    "int t[][4294967296] = {{1}};",
    "char t[4294967297][1];",
    "char t[18446744073709551615u][18446744073709551615u];",
];

// Texts of some lines, and their reports.
pub(crate) const AT_LINES: &[(&str, &str)] = &[
    (
        "int main(void) {\nswitch (1) {\ncase 1:\n;\ncase 2:\ncase\n1:\n;\n}\n}",
        "refused type 2 Twice line 6\n",
    ),
    (
        "int main(void) {\nswitch (1) {\ndefault:\n;\ncase 2:\ndefault:\n;\n}\n}",
        "refused type 2 Twice line 6\n",
    ),
    (
        "int main(void) {\nswitch (1) {\ncase 1: ;\ncontinue;\n}\n}",
        "refused type 3 Mismatch line 4\n",
    ),
    (
        "int main(void) {\nswitch (1) {\ncase 1: ;\nint\nx;\n}\n}",
        "refused parse 1 Syntax line 4\n",
    ),
    (
        "int main(void) {\nswitch (1) {\ncase 1:\n{\ncase 2: ; } }\n}",
        "refused parse 1 Syntax line 5\n",
    ),
    (
        "int t[2][2] =\n{\n1,\n2 };\nint main(void) { return 0; }",
        "refused parse 1 Syntax line 3\n",
    ),
    (
        "int u[2][2]; int f(int a[]) { return a[0]; }\nint main(void) { return f(\nu[0]\n); }",
        "refused type 3 Mismatch line 3\n",
    ),
    (
        "int u[2][2];\nint main(void) {\nreturn 1 +\nu[0];\n}",
        "refused type 3 Mismatch line 4\n",
    ),
    (
        "int u[2];\nint main(void) {\nreturn 1 +\nu[0]\n[0];\n}",
        "refused type 3 Mismatch line 4\n",
    ),
    (
        "short\nlong x;\nint main(void) { return 0; }",
        "refused parse 1 Syntax line 2\n",
    ),
    (
        "int main(void) {\nswitch (0u) {\ncase -1: ;\ncase 4294967295u: ;\n} }",
        "refused type 2 Twice line 4\n",
    ),
    (
        "int\nt\n[65536]\n[65536];\nint main(void) { return 0; }",
        "refused type 9 TooLarge line 2\n",
    ),
    (
        "int t[2][2];\nint main(void) { return\n\
         t[0][t[0][t[0][t[0][t[0][t[0][t[0][t[0][t[0][t[0][t[0][t[0][t[0][t[0][t[0][t[0][0]]]]]]]]]]]]]]]]; }",
        "refused type 8 Need line 3\n",
    ),
];
