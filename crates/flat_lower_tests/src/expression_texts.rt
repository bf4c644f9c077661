//! Texts of C on expressions, calls and arithmetic.

pub const SHORT_CIRCUITS: &str = "#include <stdio.h>
int n;
int t(int x) { n = n % 1000 * 3 + x; putchar('0' + x); return x; }
int main(void) {
  int a = t(0) && t(1);
  int b = t(2) && t(0);
  int c = t(3) || t(4);
  int d = t(0) || t(5);
  int e = t(0) || t(0) && t(6) || t(7);
  int f = !t(7) && t(8) || !!t(9);
  long l = 4294967296;
  putchar('a' + (l && 1) + (0 || l));
  if (t(1) && (t(0) || t(2)) && !(t(3) && t(0))) n++;
  while (n % 7 && t(1) || t(0)) n++;
  return a + b * 2 + c * 4 + d * 8 + e * 16 + f * 32 + n % 100 * 64;
}
";

pub const CHOICES: &str = "#include <stdio.h>
int t(int x) { putchar('0' + x); return x; }
int side(int x) { return x < 0 ? -1 : x > 0 ? 1 : 0; }
int main(void) {
  int a[3]; int i; unsigned char u = 200; char c = -56; long s = 0;
  a[0] = t(1) ? t(2) : t(3); a[1] = t(0) ? t(2) : t(3); a[2] = 1 ? t(0) ? 5 : 6 : 7;
  for (i = 0; i < 3; i++) s = s * 10 + (i == 1 ? a[i] : a[2 - i]);
  s += (1 ? -1 : 0u) > 0 ? 1000 : 2000;
  s += (0 ? u : c) < 0 ? 10000 : 20000;
  s += a[i > 2 ? 1 : 0] * 100000;
  i > 2 ? t(8) : t(9);
  s = i ? s : s / 0;
  return (int) s + side(-5) * 7 + side(9) * 3 + side(0);
}
";

pub const NEGATIVE_CHARS: &str = "#include <stdio.h>
char g[4] = {-1, -128, 127, 200};
unsigned char u[4] = {-1, -128, 127, 200};
char lone = -3;
int main(void) {
  char l[3]; unsigned char m[3]; int i; int s = 0; char c = 250; long w = 0;
  for (i = 0; i < 3; i++) { l[i] = 253 + i * 2; m[i] = 253 + i * 2; }
  for (i = 0; i < 3; i++) { s = s * 3 + l[i]; s = s * 3 + m[i]; }
  for (i = 0; i < 4; i++) { s = s * 2 + g[i]; s = s * 2 - u[i]; w = w * 256 + (g[i] ^ u[i]); }
  putchar(g[0] < 0 ? 'y' : 'n'); putchar(u[0] < 0 ? 'y' : 'n'); putchar(c < lone ? 'y' : 'n');
  putchar(g[1] == u[1] ? 'y' : 'n'); putchar(g[3]);
  putchar((unsigned char) g[3] == u[3] ? 'y' : 'n');
  l[0] = g[1]; l[0]--; l[1] = l[0] + g[2]; s += l[0] * 5 + l[1];
  return s + c + (int) (w % 100003);
}
";

pub const UNSIGNED_COMPARISONS: &str = "#include <stdio.h>
void b(int x) { putchar('0' + x); }
int main(void) {
  unsigned a = 2147483648u; unsigned c = 5; int i = -1; unsigned long w = 9223372036854775808u;
  long l = -1;
  unsigned char u = 255; char s = -1;
  b(a > c); b(a < c); b(i > c); b(i < a); b(l < c); b(l < w); b(w > 1);
  b(w <= 9223372036854775807);
  b(u > s); b(u == s); b((unsigned) u > s); b(s > a); b(s == 4294967295u); b(u == 255u);
  b(i == 4294967295);
  b(i == 4294967295u); b(l == 18446744073709551615u); b(a - c - a > 0); b(c - 6 > c);
  b(i / 2u > 5);
  b(-1 / 2 > 5); b(a >> 31 == 1); b(i >> 31 == -1); b((w >> 63) == 1); b(l >> 63 == -1);
  b(-1L < 1u); b(-1 < 1u);
  b(a >= 2147483648u); b(a <= 2147483647u); b(0u >= 0); b(w % 10 == 8); b(w / 3 > w % 3);
  return (int) (a / 3 + c) + (int) (w / 1000000007);
}
";

pub const EDGES: &str = "#include <stdio.h>
unsigned h;
void say(long x) { h = h * 31 + (unsigned) (x ^ x >> 32); putchar((int) (h & 255)); }
int main(void) {
  int m = -2147483647 - 1; int t = 2147483647; long lm = -9223372036854775807 - 1;
  long lt = 9223372036854775807;
  unsigned u = 4294967295u; unsigned long w = 18446744073709551615u; int n = 46340; int i;
  say(m + t); say(m / 1); say(m % 2); say(-(m + 1)); say(m >> 31); say(1 << 30); say(~m);
  say(n * n); say(m / 2);
  say(t / -1); say(t % -7); say(-t % 7); say(m % 10); say(m & t); say(m ^ t); say(m | 1);
  say(!m); say(m / m); say(m / t);
  say(lm + lt); say(lm / 2); say(lm % 10); say(-(lm + 1)); say(lm >> 63); say(1L << 62);
  say(~lm); say(lm % 7);
  say(3037000499 * 3037000499); say(lt / -1); say(lt % -10); say(lm ^ m); say(lm < m);
  say(lt > u); say((int) lt); say((int) lm);
  say(u + 1); say(u * u); say(u / 3); say(u % 10); say(u << 31); say(u >> 31); say(-u); say(~u);
  say(u - 1 > u);
  say(w + 1); say(w * w); say(w / 3); say(w % 10); say(w << 63); say(w >> 63); say(-w); say(~w);
  say(w / 4294967296 == u);
  for (i = 0; i < 32; i++) { say(1u << i); say(u >> i); say(m >> i); say(1 << i % 31); }
  for (i = 0; i < 64; i += 7) { say(1ul << i); say(w >> i); say(lm >> i); say(1L << i % 63); }
  say((char) t); say((unsigned char) m); say((char) 128); say((int) 2147483648);
  say((int) (w - 5)); say((unsigned) lm);
  return (int) h;
}
";

pub const LONGS: &str = "#include <stdio.h>
void digits(long n) { if (n < 0) { putchar('-'); n = -n; } if (n > 9) digits(n / 10);
  putchar((int) ('0' + n % 10)); }
long power(long b, int n) { long r = 1; while (n > 0) { if (n & 1) r *= b; n >>= 1;
  if (n) b *= b; } return r; }
unsigned long hash(char s[], int n) {
  unsigned long x = 14695981039346656037u; int i;
  for (i = 0; i < n; i++) { x ^= s[i]; x *= 1099511628211; }
  return x;
}
int main(void) {
  char s[3]; unsigned long x; long a = 1; int n;
  s[0] = 't'; s[1] = 'r'; s[2] = -3;
  digits(power(-3, 39)); putchar(' '); digits(power(10, 18) / 7); putchar(' ');
  digits(-1000000007L * 999999937 % 65537);
  x = hash(s, 3);
  putchar(' '); digits((long) (x >> 1));
  for (n = 1; a < 4611686018427387904; n++) a = a * 2;
  return n + (int) (x % 1000);
}
";

pub const SIGNED_POWERS: &str = "#include <stdio.h>
unsigned h;
void say(long x) { h = h * 31 + (unsigned) (x ^ x >> 32); }
void ints(int x) {
  say(x / 1); say(x % 1); say(x / 2); say(x % 2); say(x / 8); say(x % 8);
  say(x / 1073741824); say(x % 1073741824);
}
void longs(long x) {
  say(x / 1); say(x % 1); say(x / 2); say(x % 2); say(x / 16); say(x % 16);
  say(x / 2147483648); say(x % 2147483648);
  say(x / 4611686018427387904); say(x % 4611686018427387904);
}
void narrow(char c, short s) {
  say(c / 4); say(c % 4); say(s / 256); say(s % 256); say(c / 2L); say(s % 64L);
}
int main(void) {
  int m = -2147483647 - 1; long lm = -9223372036854775807 - 1; long i;
  for (i = -17; i < 18; i++) { ints(i); longs(i); }
  ints(m); ints(m + 1); ints(m + 7); ints(-1073741824); ints(-1073741823); ints(2147483647);
  putchar((int) (h & 127));
  longs(m); longs(lm); longs(lm + 1); longs(lm + 15); longs(-4611686018427387904);
  longs(-4611686018427387903); longs(9223372036854775807); longs(-2147483649);
  putchar((int) (h & 127));
  narrow(-128, -32768); narrow(127, 32767); narrow(-1, -1); narrow(-3, -255); narrow(5, 256);
  return (int) h;
}
";

pub const MANY_SCALARS: &str = "int main(void) {
  long a0 = 1, a1 = a0 * 3 % 1009 + 1, a2 = a1 * 3 % 1009 + 2, a3 = a2 * 3 % 1009 + 3,
    a4 = a3 * 3 % 1009 + 4, a5 = a4 * 3 % 1009 + 5, a6 = a5 * 3 % 1009 + 6,
    a7 = a6 * 3 % 1009 + 7, a8 = a7 * 3 % 1009 + 8, a9 = a8 * 3 % 1009 + 9,
    a10 = a9 * 3 % 1009 + 10, a11 = a10 * 3 % 1009 + 11, a12 = a11 * 3 % 1009 + 12,
    a13 = a12 * 3 % 1009 + 13, a14 = a13 * 3 % 1009 + 14, a15 = a14 * 3 % 1009 + 15,
    a16 = a15 * 3 % 1009 + 16, a17 = a16 * 3 % 1009 + 17, a18 = a17 * 3 % 1009 + 18,
    a19 = a18 * 3 % 1009 + 19, a20 = a19 * 3 % 1009 + 20, a21 = a20 * 3 % 1009 + 21,
    a22 = a21 * 3 % 1009 + 22, a23 = a22 * 3 % 1009 + 23, a24 = a23 * 3 % 1009 + 24,
    a25 = a24 * 3 % 1009 + 25, a26 = a25 * 3 % 1009 + 26, a27 = a26 * 3 % 1009 + 27,
    a28 = a27 * 3 % 1009 + 28, a29 = a28 * 3 % 1009 + 29, a30 = a29 * 3 % 1009 + 30,
    a31 = a30 * 3 % 1009 + 31, a32 = a31 * 3 % 1009 + 32, a33 = a32 * 3 % 1009 + 33,
    a34 = a33 * 3 % 1009 + 34, a35 = a34 * 3 % 1009 + 35, a36 = a35 * 3 % 1009 + 36,
    a37 = a36 * 3 % 1009 + 37, a38 = a37 * 3 % 1009 + 38, a39 = a38 * 3 % 1009 + 39,
    a40 = a39 * 3 % 1009 + 40, a41 = a40 * 3 % 1009 + 41, a42 = a41 * 3 % 1009 + 42,
    a43 = a42 * 3 % 1009 + 43, a44 = a43 * 3 % 1009 + 44, a45 = a44 * 3 % 1009 + 45,
    a46 = a45 * 3 % 1009 + 46, a47 = a46 * 3 % 1009 + 47, a48 = a47 * 3 % 1009 + 48,
    a49 = a48 * 3 % 1009 + 49, a50 = a49 * 3 % 1009 + 50, a51 = a50 * 3 % 1009 + 51,
    a52 = a51 * 3 % 1009 + 52, a53 = a52 * 3 % 1009 + 53, a54 = a53 * 3 % 1009 + 54,
    a55 = a54 * 3 % 1009 + 55, a56 = a55 * 3 % 1009 + 56, a57 = a56 * 3 % 1009 + 57,
    a58 = a57 * 3 % 1009 + 58, a59 = a58 * 3 % 1009 + 59, a60 = a59 * 3 % 1009 + 60,
    a61 = a60 * 3 % 1009 + 61, a62 = a61 * 3 % 1009 + 62, a63 = a62 * 3 % 1009 + 63;
  return (int) (0 + a0 * 1 + a1 * 2 + a2 * 3 + a3 * 4 + a4 * 5 + a5 * 6 + a6 * 7 + a7 * 1
    + a8 * 2 + a9 * 3 + a10 * 4 + a11 * 5 + a12 * 6 + a13 * 7 + a14 * 1 + a15 * 2
    + a16 * 3 + a17 * 4 + a18 * 5 + a19 * 6 + a20 * 7 + a21 * 1 + a22 * 2 + a23 * 3
    + a24 * 4 + a25 * 5 + a26 * 6 + a27 * 7 + a28 * 1 + a29 * 2 + a30 * 3 + a31 * 4
    + a32 * 5 + a33 * 6 + a34 * 7 + a35 * 1 + a36 * 2 + a37 * 3 + a38 * 4 + a39 * 5
    + a40 * 6 + a41 * 7 + a42 * 1 + a43 * 2 + a44 * 3 + a45 * 4 + a46 * 5 + a47 * 6
    + a48 * 7 + a49 * 1 + a50 * 2 + a51 * 3 + a52 * 4 + a53 * 5 + a54 * 6 + a55 * 7
    + a56 * 1 + a57 * 2 + a58 * 3 + a59 * 4 + a60 * 5 + a61 * 6 + a62 * 7 + a63 * 1);
}
";

pub const NESTED_CALLS: &str = "#include <stdio.h>
int log(int x) { putchar('0' + x % 10); return x; }
int add(int a, int b) { return log(a + b); }
int mul(int a, int b, int c) { return log(a * b - c); }
int main(void) {
  int v[4]; int i = 1;
  v[0] = 3; v[1] = 1; v[2] = 2; v[3] = 0;
  return add(mul(add(1, 2), add(i++, add(3, i)), log(4)),
  add(log(5), mul(v[v[add(1, 1)]], log(v[0]), add(i, 6))))
    + v[v[v[v[log(0)]]]] * 1000 + add(1, log(2)) * add(log(3), 4) - (log(9)
    - add(log(8), log(7)));
}
";

pub const EIGHT_ARGUMENTS: &str = "#include <stdio.h>
int eight(char a, unsigned char b, int c, unsigned d, long e, unsigned long f, int g[], char h[])
  {
  putchar(a); putchar(b); g[0] += c; h[1] = h[1] - 1;
  return (int) (a + b * 2 + c * 3 + d * 5 + e * 7 + f * 11 + g[0] * 13 + h[1] * 17);
}
int f(int a, int b, int c, int d, int e, int f, int g, int h) {
  return a + 2 * b - 3 * c + 4 * d - 5 * e + 6 * f - 7 * g + 8 * h;
}
int main(void) {
  int g[1]; char h[2]; int r; int x = 3;
  g[0] = 4; h[0] = 9; h[1] = -128;
  r = eight(321, 354, -3, -4, -5, -6, g, h);
  r = r * 3 + eight('c', 'd', 1L, 2u, 'e', x, g, h);
  return f(f(1, 2, 3, 4, 5, 6, 7, 8), 2, x++, f(8, 7, 6, 5, 4, 3, 2, 1), x, 6, -x,
  f(x, x, 1, 2, x, 3, 4, x))
    + r + g[0] + h[1] + x;
}
";

pub const SCALARS: &str = "#include <stdio.h>
int many(int a, int b, int c, int d) {
  int e = a + b, f = c + d, g = e * f; char h = g; unsigned char i = g; unsigned j = g;
  long k = g; unsigned long l = g;
  int m = a - 1, n = b - 1, o = c - 1, p = d - 1, q = m * n, r = o * p;
  long s = q + r, t = s * s, u = t + k, v = u - l;
  { int a = 1, b = 2; { int c = a + b, d = c * 2; v += c * d; } { long c = a - b, e = c; v -= e;
  } v *= a + b; }
  return (int)
  (v + a + b * 2 + c * 3 + d * 4 + e + f + g + h + i + j % 10 + k + m + n + o + p + q + r + s + t
  + u);
}
int main(void) { return many(1, 2, 3, 4) + many(-5, 60, -70, 8); }
";
