//! Texts of C in which `@` stands for a type.

pub const OPERATORS: &str = "#include <stdio.h>
unsigned h;
void say(long x) {
  h = h * 31 + (unsigned) (x ^ x >> 32);
  putchar((int) (h & 255));
}
void test(@ a, @ b) {
  say(a + b); say(a - b); say(a * b); say(a / b); say(a % b);
  say((a & 63) << (b & 7)); say(a >> (b & 7));
  say(a < b); say(a > b); say(a <= b); say(a >= b); say(a == b); say(a != b);
  say(a & b); say(a ^ b); say(a | b); say(a && b); say(a || b);
  say(-a); say(+a); say(~a); say(!a); say(a ? a : b); say((b, a));
}
int main(void) {
  test(7, 3); test(-7, 3); test(100, -27); test(-128, 127); test(0, 1); test(64, 64);
  return (int) h;
}
";

pub const ASSIGNMENTS: &str = "#include <stdio.h>
unsigned h;
void say(long x) {
  h = h * 31 + (unsigned) (x ^ x >> 32);
  putchar((int) (h & 255));
}
@ g;
@ w[5];
void compound(@ a, @ b) {
  @ x;
  x = a; say(x += b); say(x); x = a; say(x -= b); x = a; say(x *= b); x = a; say(x /= b);
  x = a; say(x %= b); x = a & 31; say(x <<= b & 3); x = a; say(x >>= b & 3);
  x = a; say(x &= b); x = a; say(x ^= b); x = a; say(x |= b); say(x);
}
void into(@ v[], int i, @ b) {
  v[i] += b; say(v[i]); v[i] -= 2; v[i + 1 - 1] *= 3; say(v[i]); v[i] /= b; say(v[i]);
  v[i] %= 7; v[i] |= 16; v[i] ^= 5; v[i] &= 29; say(v[i]); v[i] <<= 1; say(v[i] >>= 2);
}
int main(void) {
  @ v[3];
  @ x, y;
  compound(7, 3); compound(-7, 3); compound(100, -27); compound(-100, 99);
  v[0] = 21; v[1] = -21; v[2] = 99;
  into(v, 0, 5); into(v, 1, 4); into(v, 2, 2);
  w[3] = 50; into(w, 3, 3); into(w, 4, 9);
  g = 11; g += 4; say(g); g *= -3; say(g); g %= 8; say(g); g |= 64; say(g >>= 3);
  x = y = w[1] = 120; say(x + y + w[1]); x += y -= 100; say(x); say(y);
  w[w[0] + 2] = w[3] = 77; say(w[2]); w[2] += w[3] += 1; say(w[2]); say(w[3]);
  return (int) h;
}
";

pub const BUMPS: &str = "#include <stdio.h>
unsigned h;
void say(long x) {
  h = h * 31 + (unsigned) (x ^ x >> 32);
  putchar((int) (h & 255));
}
@ g = 126;
@ w[3] = {1, 126, 255};
void all(@ v[], int i) {
  say(v[i]++); say(v[i]); say(++v[i]); say(v[i]--); say(--v[i]); say(v[i]);
}
int main(void) {
  @ x = 127;
  @ v[3];
  int i = 0;
  say(x++); say(x); say(++x); say(x--); say(--x); say(--x); say(x);
  say(g++); say(g++); say(g); say(++g); say(g--); say(--g);
  v[0] = 0; v[1] = -1; v[2] = 127;
  all(v, 0); all(v, 1); all(v, 2); all(w, 0); all(w, 1); all(w, 2);
  say(v[i++]++); say(v[i++]--); say(++v[i--]); say(--v[i]); say(i);
  x = 0; say(--x); say(x < 0); x--; say(x); say(x-- + x); say(x);
  for (i = 0; i < 300; i++) { x++; ++g; w[i % 3]--; }
  say(x); say(g); say(w[0]); say(w[1]); say(w[2]);
  return (int) h;
}
";

pub const CONVERSIONS: &str = "#include <stdio.h>
unsigned h;
void say(long x) {
  h = h * 31 + (unsigned) (x ^ x >> 32);
  putchar((int) (h & 255));
}
char c; unsigned char u; int i; unsigned v; long l; unsigned long w;
void from(@ a) {
  char cs[2]; unsigned char us[2]; long ls[2];
  c = (char) a; u = a; i = a; v = a; l = a; w = a;
  say(c); say(u); say(i); say(v); say(l); say(w);
  say((char) a + 1); say((unsigned char) a + 1); say((int) a); say((unsigned) a); say((long) a);
  say((unsigned long) a); say((char) (unsigned char) a); say((unsigned) (char) a);
  say((long) (unsigned) a);
  cs[1] = a; us[1] = a; ls[1] = a; say(cs[1]); say(us[1]); say(ls[1]);
  say(c + a > 0); say(a - u > 0); say(i - a < 1); say(v + a); say(a - l); say(w + a);
  say(a < c); say(a < u); say(a < i); say(a < v); say(a < l); say(a < w); say(v > a); say(w >= a);
  say(a == c); say(a != u); say(a / (v | 1)); say(a % (w | 1)); say((a & c) >> 1);
  say(v >> (a & 7));
  say(a ? a : w); say(c ? v : a); c += a & 15; u -= a; say(c); say(u); l = c; w = c; say(l);
  say(w);
  v = c; say(v); w = i; say(w); w = v; say(w); l = v; say(l);
}
@ back(long x) { return x; }
int main(void) {
  from(5); from(-3); from(127); from(200); from(300); from(-70000); from(1000000);
  say(back(-1)); say(back(4294967296 + 130)); say(back(255)); say(back(65535 * 3L));
  say(back(2147483648));
  return (int) h;
}
";

/// Conversions from a type to the two short ones and back, and operators between them.
pub const SHORTS: &str = "#include <stdio.h>
unsigned h;
void say(long x) {
  h = h * 31 + (unsigned) (x ^ x >> 32);
  putchar((int) (h & 255));
}
short s; unsigned short t = 65535;
short ss[2] = {-32768, 32767}; unsigned short ts[3] = {65535, 32768};
void from(@ a) {
  s = (short) a; t = a; ss[1] = a; ts[2] = a; say(s); say(t); say(ss[1]); say(ts[2]);
  say((short) a + 1); say((unsigned short) a * 2); say((@) s); say((@) t); say((short) (unsigned short) a);
  say(s + a > 0); say(t - a < 1); say(a < s); say(a < t); say(a == s); say(a != t); say(s < t); say(s == t);
  say(a & s); say(a ^ t); say(a | s); say((a & t) >> 1); say(t >> (a & 7)); say(s >> (a & 15)); say(t << (a & 15));
  say(s / (t | 1)); say(t % (a | 1)); say(a ? s : t); say(-s); say(~t); say(!s); say(+t);
  s += a & 15; t -= a; ss[0] ^= a; ts[1] |= a; say(s); say(t); say(ss[0]); say(ts[1]);
  say(s++); say(--t); say(ss[1]--); say(++ts[2]); say(s); say(t); say(ss[1]); say(ts[2]);
}
int main(void) {
  from(5); from(-3); from(127); from(200); from(32767); from(32768); from(65535); from(-70000); from(1000000);
  return (int) h;
}
";

/// Arrays with two sizes: global, local, and as a parameter.
pub const TABLES: &str = "#include <stdio.h>
unsigned h;
void say(long x) {
  h = h * 31 + (unsigned) (x ^ x >> 32);
  putchar((int) (h & 255));
}
@ before = 77;
@ g[3][5] = {{1, -2, 3}, {100, 127, -128, 90,},};
@ open[][2] = {{-1}, {2, 3}, {4}};
@ behind[2] = {78, 79};
void change(@ t[][5], int i, int j) {
  t[i][j] += 3; say(t[i][j]); t[i + 1][j - 1] = t[i][j] - 9; say(t[i + 1][j - 1]++); say(--t[i + 1][j - 1]);
  t[i][j] <<= 1 & i; say(t[i][j]); t[i][t[i][j] & 3] ^= 21; say(t[i][t[i][j] & 3]--);
}
int all(@ t[7][5], int rows) {
  int i; int j; int sum = 0;
  for (i = 0; i < rows; i++) for (j = 0; j < 5; j++) { say(t[i][j]); sum += (int) t[i][j] & 63; }
  return sum;
}
int main(void) {
  @ l[2][5]; @ one[1][1]; int i; int j;
  for (j = 0; j < 5; j++) for (i = 0; i < 2; i++) l[i][j] = g[i][4 - j] + i;
  one[0][0] = 9;
  change(g, 0, 1); change(g, 1, 4); change(l, 0, 3); say(all(g, 3)); say(all(l, 2));
  i = 0; open[i][1] = open[i + 1][i]; say(open[i++][1]++); say(i); --open[0][i];
  for (i = 0; i < 3; i++) for (j = 0; j < 2; j++) say(open[i][j]);
  say(before); say(behind[0]); say(behind[1]); say(one[0][0]); say(g[open[0][1] - 2][one[0][0] - 9]);
  return (int) h;
}
";

/// Divisions, remainders and rows by powers of two, beside some by other numbers.
pub const POWERS: &str = "#include <stdio.h>
unsigned h;
void say(long x) {
  h = h * 31 + (unsigned) (x ^ x >> 32);
  putchar((int) (h & 255));
}
@ g[3][8] = {{1, 2, 3}, {4, 5, 6, 7}, {8}};
int main(void) {
  @ a = (@) -9000; unsigned u = 4294967291u; unsigned long w = 18446744073709551607u; int i;
  for (i = 0; i < 40; i++) {
    say(a / 1u); say(a % 1u); say(a / 8u); say(a % 8u); say(a / 6u); say(a % 6u); say(a / 8); say(a % 8);
    say(u / 2147483648u); say(u % 2147483648u); say(u / 16); say(u % 16); say((long) (u / 64ul)); say(u % 1);
    say((long) (w / 9223372036854775808u)); say((long) (w % 9223372036854775808u)); say((long) (w % 4096));
    g[i % 3u][(unsigned) a % 8u] += 1; say(g[i % 3u][(unsigned) (a + 1) % 8u]);
    a = (@) (a + 1237); u = u - 98765432u; w = w / 2u + u;
  }
  return (int) h;
}
";
