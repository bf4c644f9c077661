//! The functions of the library. `bench/library` writes this table; the proof compares it with that of
//! specs/Table, row by row.

ghost use Rattle.std.specs.Prelude.{◌≡◌, map};
ghost use Rattle.c_library.specs.Table as specs;

use crate::definition::TableRow;
use crate::header::Header;

/// Each with its name, its header, and the text of its definition.
const TABLE: [TableRow; 36] = [
    (
        b"print.c",
        Header::Stdio,
        b"int print.c ( int c ) { putchar ( c ) ; return 1 ; }",
    ),
    (
        b"print.s",
        Header::Stdio,
        b"int print.s ( char s [ ] ) { int n = 0 ; while ( s [ n ] ) { putchar ( s [ n ] ) ; n ++ ; } \
          return n ; }",
    ),
    (
        b"print.u",
        Header::Stdio,
        b"int print.u ( unsigned long n ) { int k = n < 10 ? 0 : print.u ( n / 10 ) ; putchar ( 48 + n % \
          10 ) ; return k + 1 ; }",
    ),
    (
        b"print.d",
        Header::Stdio,
        b"int print.d ( long n ) { if ( n >= 0 ) return print.u ( n ) ; putchar ( 45 ) ; return 1 + \
          print.u ( - ( unsigned long ) n ) ; }",
    ),
    (
        b"print.x",
        Header::Stdio,
        b"int print.x ( unsigned long n ) { int k = n < 16 ? 0 : print.x ( n >> 4 ) ; int d = n & 15 ; \
          putchar ( d < 10 ? 48 + d : 97 - 10 + d ) ; return k + 1 ; }",
    ),
    (
        b"print.fill",
        Header::Stdio,
        b"int print.fill ( int c , int count ) { int k = 0 ; while ( k < count ) { putchar ( c ) ; k ++ ; \
          } return k ; }",
    ),
    (
        b"print.size",
        Header::Stdio,
        b"int print.size ( unsigned long n , int base ) { int k = 0 ; while ( n != 0 ) { n /= base ; k ++ \
          ; } return k ; }",
    ),
    (
        b"print.digits",
        Header::Stdio,
        b"int print.digits ( unsigned long n , int base , int letters ) { if ( n == 0 ) return 0 ; int k \
          = print.digits ( n / base , base , letters ) ; int d = n % base ; putchar ( d < 10 ? 48 + d : \
          letters + d ) ; return k + 1 ; }",
    ),
    (
        b"print.unsigned",
        Header::Stdio,
        b"int print.unsigned ( unsigned long n , int letter , int sign , int fill , int width , int least \
          ) { int base = letter == 111 ? 8 : letter == 120 || letter == 88 ? 16 : 10 ; int size = \
          print.size ( n , base ) ; int front = sign == 0 ? 0 : sign != 35 ? 1 : base == 16 && n != 0 ? 2 \
          : 0 ; if ( sign == 35 && base == 8 && least <= size ) least = size + 1 ; if ( least < size ) \
          least = size ; if ( fill == 48 && least < width - front ) least = width - front ; int spare = \
          width - front - least ; int k = fill == 45 ? 0 : print.fill ( 32 , spare ) ; if ( front != 0 ) \
          putchar ( front == 2 ? 48 : sign ) ; if ( front == 2 ) putchar ( letter ) ; k += front + \
          print.fill ( 48 , least - size ) ; k += print.digits ( n , base , letter == 88 ? 65 - 10 : 97 - \
          10 ) ; return fill == 45 ? k + print.fill ( 32 , spare ) : k ; }",
    ),
    (
        b"print.signed",
        Header::Stdio,
        b"int print.signed ( long n , int sign , int fill , int width , int least ) { if ( n < 0 ) return \
          print.unsigned ( - ( unsigned long ) n , 100 , 45 , fill , width , least ) ; return \
          print.unsigned ( n , 100 , sign , fill , width , least ) ; }",
    ),
    (
        b"print.string",
        Header::Stdio,
        b"int print.string ( char s [ ] , int fill , int width , int most ) { int size = 0 ; while ( size \
          < most && s [ size ] ) size ++ ; int k = fill == 45 ? 0 : print.fill ( 32 , width - size ) ; \
          int i = 0 ; while ( i < size ) { putchar ( s [ i ] ) ; i ++ ; } k += size ; return fill == 45 ? \
          k + print.fill ( 32 , width - size ) : k ; }",
    ),
    (
        b"print.char",
        Header::Stdio,
        b"int print.char ( int c , int fill , int width ) { int k = fill == 45 ? 0 : print.fill ( 32 , \
          width - 1 ) ; putchar ( c ) ; k ++ ; return fill == 45 ? k + print.fill ( 32 , width - 1 ) : k \
          ; }",
    ),
    (
        b"puts",
        Header::Stdio,
        b"int puts ( char s [ ] ) { int n = 0 ; while ( s [ n ] ) { putchar ( s [ n ] ) ; n ++ ; } \
          putchar ( 10 ) ; return n + 1 ; }",
    ),
    (
        b"isdigit",
        Header::Ctype,
        b"int isdigit ( int c ) { return c >= 48 && c <= 57 ; }",
    ),
    (
        b"isupper",
        Header::Ctype,
        b"int isupper ( int c ) { return c >= 65 && c <= 90 ; }",
    ),
    (
        b"islower",
        Header::Ctype,
        b"int islower ( int c ) { return c >= 97 && c <= 122 ; }",
    ),
    (
        b"isalpha",
        Header::Ctype,
        b"int isalpha ( int c ) { return c >= 65 && c <= 90 || c >= 97 && c <= 122 ; }",
    ),
    (
        b"isalnum",
        Header::Ctype,
        b"int isalnum ( int c ) { return c >= 48 && c <= 57 || c >= 65 && c <= 90 || c >= 97 && c <= 122 \
          ; }",
    ),
    (
        b"isxdigit",
        Header::Ctype,
        b"int isxdigit ( int c ) { return c >= 48 && c <= 57 || c >= 65 && c <= 70 || c >= 97 && c <= 102 \
          ; }",
    ),
    (
        b"isspace",
        Header::Ctype,
        b"int isspace ( int c ) { return c == 32 || c >= 9 && c <= 13 ; }",
    ),
    (
        b"isprint",
        Header::Ctype,
        b"int isprint ( int c ) { return c >= 32 && c <= 126 ; }",
    ),
    (
        b"ispunct",
        Header::Ctype,
        b"int ispunct ( int c ) { return c > 32 && c <= 126 && ! ( c >= 48 && c <= 57 || c >= 65 && c <= \
          90 || c >= 97 && c <= 122 ) ; }",
    ),
    (
        b"toupper",
        Header::Ctype,
        b"int toupper ( int c ) { return c >= 97 && c <= 122 ? c - 97 + 65 : c ; }",
    ),
    (
        b"tolower",
        Header::Ctype,
        b"int tolower ( int c ) { return c >= 65 && c <= 90 ? c - 65 + 97 : c ; }",
    ),
    (
        b"abs",
        Header::Stdlib,
        b"int abs ( int n ) { return n < 0 ? - n : n ; }",
    ),
    (
        b"labs",
        Header::Stdlib,
        b"long labs ( long n ) { return n < 0 ? - n : n ; }",
    ),
    (
        b"rand.next",
        Header::Stdlib,
        b"unsigned long rand.next = 1 ;",
    ),
    (
        b"rand",
        Header::Stdlib,
        b"int rand ( void ) { rand.next = rand.next * 1103515245 + 12345 ; return ( unsigned int ) ( \
          rand.next / 65536 ) % 32768 ; }",
    ),
    (
        b"srand",
        Header::Stdlib,
        b"void srand ( unsigned int seed ) { rand.next = seed ; }",
    ),
    (
        b"abort",
        Header::Stdlib,
        b"#include void abort ( void ) { exit.now ( ( unsigned long ) 1 << 63 ) ; }",
    ),
    (
        b"exit",
        Header::Stdlib,
        b"#include void exit ( int status ) { exit.now ( status ) ; }",
    ),
    (
        b"strlen",
        Header::String,
        b"unsigned long strlen ( char s [ ] ) { unsigned long n = 0 ; while ( s [ n ] ) n ++ ; return n ; \
          }",
    ),
    (
        b"strcmp",
        Header::String,
        b"int strcmp ( char a [ ] , char b [ ] ) { unsigned long i = 0 ; while ( a [ i ] && a [ i ] == b \
          [ i ] ) i ++ ; return ( unsigned char ) a [ i ] - ( unsigned char ) b [ i ] ; }",
    ),
    (
        b"strcpy",
        Header::String,
        b"void strcpy ( char to [ ] , char from [ ] ) { unsigned long i = 0 ; while ( from [ i ] ) { to [ \
          i ] = from [ i ] ; i ++ ; } to [ i ] = 0 ; }",
    ),
    (
        b"memset",
        Header::String,
        b"void memset ( char s [ ] , int c , unsigned long n ) { unsigned long i = 0 ; while ( i < n ) { \
          s [ i ] = c ; i ++ ; } }",
    ),
    (
        b"memcpy",
        Header::String,
        b"void memcpy ( char to [ ] , char from [ ] , unsigned long n ) { unsigned long i = 0 ; while ( i \
          < n ) { to [ i ] = from [ i ] ; i ++ ; } }",
    ),
];

/// The functions of the library.
#[tactic(auto, unfolding(crate::specs::Table::table))]
pub fn table() -> &'static [TableRow]
    ensures { map (λ row. (row.0.now, row.1, row.2.now)) result.now ≡ specs.table }
{
    &TABLE
}
