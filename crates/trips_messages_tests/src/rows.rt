//! Programs with one fault each, and the first line of what is told of it.

pub type Row = (&'static str, &'static str);

pub const ROWS: &[Row] = &[
    (
        "int main(void) { return @; }\n",
        "a.c:1:25: lex BadByte: '@' begins no token",
    ),
    (
        "#include <stdio.h>\nint main(void) { printf(\"%f\", 1); return 0; }\n",
        "a.c:2:25: directive Format: '\"' begins a format that printf has not here: write %d, %u, %x, %o, %c, %s \
            or %%, and eight at most",
    ),
    (
        "int main(void) { int n; n = \"a\"; return n; }\n",
        "a.c:1:29: parse Syntax: '\"' begins a string where none stands: it is an argument, or the value of an \
            array of char",
    ),
    (
        "int main(void) { return p.x; }\n",
        "a.c:1:26: lex BadByte: '.' stands for a member of a struct or for more arguments, which are left out: \
            use arrays and variables",
    ),
    (
        "int main(void) { return 1 + \\ 1; }\n",
        "a.c:1:29: lex BadByte: '\\' joins no lines here: write what belongs together on one line",
    ),
    (
        "int main(void) { #include <stdio.h>\nreturn 0; }\n",
        "a.c:1:18: lex BadByte: '#' begins a directive at the start of a line alone",
    ),
    (
        "int main(void) { int ä = 1; return 0; }\n",
        "a.c:1:22: lex BadByte: '195' is the number of a byte that begins no token: outside comments a text has \
            ASCII alone",
    ),
    (
        "int main(void) { int price = 100; return price * 1.19; }\n",
        "a.c:1:50: lex BadLiteral: '1.19' is a floating constant, which is left out: write whole numbers, as \
            hundredths",
    ),
    (
        "int main(void) { return 08; }\n",
        "a.c:1:25: lex BadLiteral: '08' is no constant: write a whole number of 64 bits in base 8, 10 or 16, \
            with u and l behind it or none",
    ),
    (
        "int main(void) { return 0b101; }\n",
        "a.c:1:25: lex BadLiteral: '0b101' is no constant: write a whole number of 64 bits in base 8, 10 or 16, \
            with u and l behind it or none",
    ),
    (
        "int main(void) { return 10lll; }\n",
        "a.c:1:25: lex BadLiteral: '10lll' is no constant: write a whole number of 64 bits in base 8, 10 or 16, \
            with u and l behind it or none",
    ),
    (
        "int main(void) { return 0xE+1; }\n",
        "a.c:1:25: lex BadLiteral: '0xE' is no constant: write a whole number of 64 bits in base 8, 10 or 16, \
            with u and l behind it or none",
    ),
    (
        "int main(void) { return 18446744073709551616; }\n",
        "a.c:1:25: lex BadLiteral: '18446744073709551616' is no constant: write a whole number of 64 bits in \
            base 8, 10 or 16, with u and l behind it or none",
    ),
    (
        "int main(void) { return 'ab'; }\n",
        "a.c:1:25: lex BadLiteral: ''' begins no character constant: write one character or one escape, and a \
            closing quote",
    ),
    (
        "int main(void) { return ''; }\n",
        "a.c:1:25: lex BadLiteral: ''' begins no character constant: write one character or one escape, and a \
            closing quote",
    ),
    (
        "#include <stdio.h>\nint main(void) { puts(\"Hi); return 0; }\n",
        "a.c:2:23: lex BadLiteral: '\"' begins no string: write characters and escapes on one line, and a closing \
            quote",
    ),
    (
        "int main(void) {\n\t/* open\nreturn 0;\n}\n",
        "a.c:2:2: lex Unclosed: '/' begins a comment without end: write */ behind it",
    ),
    (
        "#define MAX(a, b) a\nint main(void) { return 0; }\n",
        "a.c:1:1: directive BadDefine: '#define MAX(a, b) a' is no good line: write one name, for #define a space \
            and the body behind it, and no parameters",
    ),
    (
        "#include <math.h>\n",
        "a.c:1:1: lex Directive: '#include <math.h>' includes no header that is here: write #include \
            <stdio.h> or nothing, and define the rest in the text",
    ),
    (
        "#include \"own.h\"\n",
        "a.c:1:1: lex Directive: '#include \"own.h\"' includes no header that is here: write #include <stdio.h> \
            or nothing, and define the rest in the text",
    ),
    (
        "#if N\n",
        "a.c:1:1: lex Directive: '#if N' chooses parts of a text by an expression, which is left out: write \
            #ifdef, or the part that is wanted",
    ),
    (
        "#define N 1\n#ifdef N\n",
        "a.c:2:1: directive Unbalanced: '#ifdef N' fits no group: write one #endif for each #ifdef and #ifndef, \
            and one #else between at most",
    ),
    (
        "#define N 1\n#define N 2\n",
        "a.c:2:9: directive Redefined: 'N' gives a macro another body: write #undef before it, or another name",
    ),
    (
        "#pragma once\n",
        "a.c:1:1: lex Directive: '#pragma once' is no directive that is here: only #include, #define, #undef, \
            #ifdef, #ifndef, #else and #endif are",
    ),
    (
        "struct point { int x; };\n",
        "a.c:1:1: parse Syntax: 'struct' is left out: write a variable for each member, and an array for each \
            member of many",
    ),
    (
        "int main(void) { union u; return 0; }\n",
        "a.c:1:18: parse Syntax: 'union' is left out: write a variable for each member, and an array for each \
            member of many",
    ),
    (
        "enum color c;\n",
        "a.c:1:1: parse Syntax: 'enum' names what is left out, or named already: name types of whole numbers \
            and int constants, once in a block",
    ),
    (
        "typedef int numbers[3];\n",
        "a.c:1:1: parse Syntax: 'typedef' names what is left out, or named already: name types of whole numbers \
            and int constants, once in a block",
    ),
    (
        "int f(static int n) { return n; }\n",
        "a.c:1:7: parse Syntax: 'static' does not stand here: write the declaration without it, and an object of \
            extern where it is defined",
    ),
    (
        "extern int n;\n",
        "a.c:1:1: parse Syntax: 'extern' does not stand here: write the declaration without it, and an object of \
            extern where it is defined",
    ),
    (
        "const n = 1;\n",
        "a.c:1:1: parse Syntax: 'const' does not stand here: write it beside the words of a type, or the type \
            without it",
    ),
    (
        "int f(const int n) { n = 1; return n; }\n",
        "a.c:1:24: parse Syntax: '=' does not stand here: set a variable or an element of an array, and none that \
            is const",
    ),
    (
        "double f(int x) { return x; }\n",
        "a.c:1:1: parse Syntax: 'double' is a floating type, which is left out: use int or long, as for hundredths",
    ),
    (
        "int main(void) { float x = 1; return x; }\n",
        "a.c:1:18: parse Syntax: 'float' is a floating type, which is left out: use int or long, as for hundredths",
    ),
    (
        "int _Bool b;\n",
        "a.c:1:5: parse Syntax: '_Bool' does not stand here: write it without another word of a type",
    ),
    (
        "int main(void) { goto done; return 0; }\n",
        "a.c:1:18: parse Syntax: 'goto' is left out: use loops, break, continue and return",
    ),
    (
        "void f(void);\nint main(void) { return sizeof(f()); }\n",
        "a.c:2:25: parse Syntax: 'sizeof' does not stand here: sizeof takes a type, or a value of names declared \
            before, so write the bytes",
    ),
    (
        "int *p;\n",
        "a.c:1:5: parse Syntax: '*' does not stand here: pointers are left out but for parameters, so use an \
            array and an index",
    ),
    (
        "int main(void) { int x = 1; return f(&x); }\n",
        "a.c:1:38: parse Syntax: '&' does not stand here: addresses are left out, so return a value or set a \
            global variable",
    ),
    (
        "long long long n;\n",
        "a.c:1:6: parse Syntax: 'long' does not stand here: write the words of one type, and long at most twice",
    ),
    (
        "int main(void) { done: return 0; }\n",
        "a.c:1:22: parse Syntax: ':' does not stand here: labels for goto are left out, and case stands in the \
            braces of a switch alone",
    ),
];

// The others: a test of all at once is too large for one check.
pub const MORE_ROWS: &[Row] = &[
    (
        "int main(void) { int a; a + 1 = 2; return a; }\n",
        "a.c:1:31: parse Syntax: '=' does not stand here: set a variable or an element of an array, and none that \
            is const",
    ),
    (
        "int main(void) }\n",
        "a.c:1:16: parse Syntax: '}' closes nothing that is open: look for one too many, or one that is missing \
            before it",
    ),
    (
        "int main(void) { else return 0; }\n",
        "a.c:1:18: parse Syntax: 'else' has no if before it: look for a ; or a brace too many",
    ),
    (
        "int main(void) {\n    int a = 1\n    return a;\n}\n",
        "a.c:3:5: parse Syntax: 'return' does not stand here: wanted ; behind the expression or the statement \
            before it",
    ),
    (
        "int f(int n) int n; { return n; }\n",
        "a.c:1:14: parse Syntax: 'int' does not stand here: look for a ; or a bracket that is missing before \
            it, or behind it at the end",
    ),
    (
        "int main(void) { return 0;\n",
        "a.c:1:26: parse Syntax: ';' ends the text too early: wanted } behind it",
    ),
    (
        "int main(void) { return \
            (((((((((((((((((((((((((((((((((((((((((((((((((((((((((((((((1))))))))))))))))))))))))))\
            ))))))))))))))))))))))))))))))))))))); }\n",
        "a.c:1:87: parse TooDeep: '(' opens a construct at depth 65, and 64 is the most: use variables and functions",
    ),
    (
        "#include <stdio.h>\nint main(void) { printf(1); return 0; }\n",
        "a.c:2:18: type Unknown: 'printf' wants #include <stdio.h> before it, and a string as its first argument",
    ),
    (
        "int main(void) { return malloc(1); }\n",
        "a.c:1:25: type Unknown: 'malloc' is a name of the library that is not here: define what is needed of it \
            in the text",
    ),
    (
        "int main(void) { return strlen(\"a\"); }\n",
        "a.c:1:25: type Unknown: 'strlen' is not declared: write #include <string.h> before it",
    ),
    (
        "int main(void) { putchar('a'); return 0; }\n",
        "a.c:1:18: type Unknown: 'putchar' is not declared: write #include <stdio.h> before it",
    ),
    (
        "int main(void) { return square(3); }\n",
        "a.c:1:25: type Unknown: 'square' is called, and the text has no function of this name: define it \
            before this place",
    ),
    (
        "int square(int n);\nint main(void) { return square(3); }\n",
        "a.c:2:25: type Unknown: 'square' is declared, and the text defines it nowhere: write its body, or call \
            nothing of this name",
    ),
    (
        "int main(void) { total = 1; return 0; }\n",
        "a.c:1:18: type Unknown: 'total' is not declared before this place",
    ),
    (
        "int main(void) { int x = 1; int x = 2; return x; }\n",
        "a.c:1:33: type Twice: 'x' is declared a second time in its block, or defined a second time",
    ),
    (
        "int f(void) { return 1; }\nint f(void) { return 2; }\n",
        "a.c:2:5: type Twice: 'f' is declared a second time in its block, or defined a second time",
    ),
    (
        "int main(void) { switch (1) { case 1: return 0; case 1: return 1; } return 2; }\n",
        "a.c:1:49: type Twice: 'case' gives a label that stands in this switch already",
    ),
    (
        "void f(void) { return 1; }\n",
        "a.c:1:16: type Mismatch: 'return' gives a value in a function of type void, or none in a function of \
            another type",
    ),
    (
        "int main(void) { break; return 0; }\n",
        "a.c:1:18: type Mismatch: 'break' stands in no loop, nor break in a switch",
    ),
    (
        "int a[3];\nint main(void) { return a; }\n",
        "a.c:2:25: type Mismatch: 'a' does not fit here: look for an array or a void call as a value, a value \
            that is set, or no constant",
    ),
    (
        "int main(void) { 1 = 2; return 0; }\n",
        "a.c:1:18: type Mismatch: '1' does not fit here: look for an array or a void call as a value, a value \
            that is set, or no constant",
    ),
    (
        "int f(int a) { return a; }\nint main(void) { return f(1, 2); }\n",
        "a.c:2:25: type Arity: 'f' is called with too few or too many arguments",
    ),
    (
        "int f(int a, int b, int c, int d, int e, int g, int h, int i, int j) { return a; }\n",
        "a.c:1:67: type TooManyParams: 'j' is the ninth parameter, and eight are the most: use an array or \
            global variables",
    ),
    (
        "char a[1048577];\n",
        "a.c:1:6: type TooLarge: 'a' is too large: an array, and all globals together, have 1,048,576 bytes at most",
    ),
    (
        "int main(void) { int v0; int v1; int v2; int v3; int v4; int v5; int v6; int v7; int v8; int v9; int \
            v10; int v11; int v12; int v13; int v14; int v15; int v16; int v17; int v18; int v19; int v20; int \
            v21; int v22; int v23; int v24; int v25; int v26; int v27; int v28; int v29; int v30; int v31; int \
            v32; int v33; int v34; int v35; int v36; int v37; int v38; int v39; int v40; int v41; int v42; int \
            v43; int v44; int v45; int v46; int v47; int v48; int v49; int v50; int v51; int v52; int v53; int \
            v54; int v55; int v56; int v57; int v58; int v59; int v60; int v61; int v62; int v63; int last; \
            return 0; }\n",
        "a.c:1:588: type TooManyScalars: 'last' is the 65th variable of its function without brackets, and 64 \
            are the most: use an array",
    ),
    (
        "int main(void) { return 1 + (1 + (1 + (1 + (1 + (1 + (1 + (1 + (1 + (1 + (1 + (1 + (1 + (1 + (1 + (1 + \
            (1 + (1))))))))))))))))); }\n",
        "a.c:1:25: type Need: '1' begins an expression that needs more than 16 values at once: keep parts of it \
            in variables",
    ),
    (
        "int f(void) { return 0; }\n",
        "a.c: type NoMain: no function int main(void) with a body is defined",
    ),
    (
        "int main(void) { return square(3); }\nint square(int n) { return n * n; }\n",
        "a.c:1:25: type Unknown: 'square' is declared behind this place alone: write its prototype or its \
            definition before it",
    ),
    (
        "int main(void) { int count = 1; return cuont; }\n",
        "a.c:1:40: type Unknown: 'cuont' is not declared before this place: the nearest name that is declared \
            is 'count'",
    ),
    (
        "int height;\nint length, width;\nint main(void) { return lenhgt; }\n",
        "a.c:3:25: type Unknown: 'lenhgt' is not declared before this place: the nearest name that is declared \
            is 'length'",
    ),
    (
        "#include <stdio.h>\nint main(void) { putcahr('a'); return 0; }\n",
        "a.c:2:18: type Unknown: 'putcahr' is called, and the text has no function of this name: the nearest \
            name that is declared is 'putchar'",
    ),
    (
        "int main(void) { int a; a = 1 b = 2; return a; }\n",
        "a.c:1:31: parse Syntax: 'b' does not stand here: wanted ; behind the expression or the statement before it",
    ),
    (
        "int main(void) { int x = 1; return x }\n",
        "a.c:1:38: parse Syntax: '}' does not stand here: wanted ; behind the expression or the statement before it",
    ),
    (
        "int main(void) { if (1) return 1 else return 0; }\n",
        "a.c:1:34: parse Syntax: 'else' does not stand here: wanted ; behind the expression or the statement \
            before it",
    ),
    (
        "int main(void) { if (1 { return 1; } return 0; }\n",
        "a.c:1:24: parse Syntax: '{' does not stand here: wanted ) behind the expression before it",
    ),
    (
        "int a[3;\n",
        "a.c:1:8: parse Syntax: ';' does not stand here: wanted ] behind the expression before it",
    ),
    (
        "int main(void) { return 0; } }\n",
        "a.c:1:30: parse Syntax: '}' closes nothing that is open: look for one too many, or one that is missing \
            before it",
    ),
    (
        "int main(void) { bool done = 1; return done; }\n",
        "a.c:1:23: parse Syntax: 'done' stands behind a name that is no type: write int, char, short or long, \
            also with unsigned",
    ),
    (
        "main() { return 0; }\n",
        "a.c:1:1: parse Syntax: 'main' has no type before it: write int, char, short or long, or void for a \
            function without a value",
    ),
    (
        "int f(int a, b) { return a; }\n",
        "a.c:1:14: parse Syntax: 'b' has no type before it: write int, char, short or long, or void for a \
            function without a value",
    ),
];
