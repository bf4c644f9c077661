//! Texts of C with every statement of the flat form.

pub const LOOPS: &str = "#include <stdio.h>
int main(void) {
  int i; int j; int s = 0;
  for (i = 0; i < 10; i++) {
    if (i == 3) continue;
    if (i == 8) break;
    for (j = 0; j < i; j = j + 2) { s = s + j; if (s > 50) break; }
    while (s % 7 != 0) s++;
    putchar('0' + s % 10);
  }
  return s;
}
";

pub const SAVED: &str = "int next(int n) { return n + 1; }
int main(void) {
  int a = 1; int b = 2; int c = 3; int d = 4; int e = 5; int f = 6; int g = 7; int h = 8; int i = 9;
  int j = 10; int k = 11; int l = 12; int m = 13; int n = 14; int o = 15; int p = 16; int q = 17; int r = 18;
  int s = next(a) + next(b) * 2;
  s = s + next(next(c + d * next(e)));
  return s + a + b + c + d + e + f + g + h + i + j + k + l + m + n + o + p + q + r;
}
";

pub const EIGHT: &str = "int weigh(int a, int b, int c, int d, int e, int f, int g, int h) {
  return a + 2 * b + 3 * c + 4 * d + 5 * e + 6 * f + 7 * g + 8 * h;
}
int four(int a, int b, int c, int d) { return weigh(a, b, c, d, d, c, b, a) - a; }
int main(void) { return weigh(1, 2, 3, 4, 5, 6, 7, 8) - four(4, 3, 2, 1); }
";

pub const BACKWARD: &str = "#include <stdio.h>
void show(char text[], int n) { while (n > 0) { n = n - 1; putchar(text[n]); } }
int main(void) {
  char text[16]; int n = 0; int c;
  while ((c = getchar()) != EOF) { if (n == 16) break; text[n] = (char) c; n++; }
  show(text, n);
  return n;
}
";

pub const FILTER: &str = "#include <stdio.h>
char signal[60]; long sum;
int main(void) {
  int i; int j;
  for (i = 0; i < 60; i++) signal[i] = i * 7 % 31;
  for (i = 2; i < 58; i++) {
    if (signal[i] < 16) continue;
    sum = sum + signal[i];
    for (j = i - 2; j <= i + 2; j = j + 2) sum = sum + signal[j];
  }
  return (int) sum;
}
";

pub const CALLS: &str = "#include <stdio.h>
int odd(int n);
int even(int n) { if (n == 0) return 1; return odd(n - 1); }
int odd(int n) { if (n == 0) return 0; else return even(n - 1); }
int fib(int n) { return n < 2 ? n : fib(n - 1) + fib(n - 2); }
void nothing(void) { }
int main(void) { nothing(); if (even(10) && !odd(4) || fib(3) == 7) putchar('y'); return fib(12); }
";

pub const LONG_LEG: &str = "#include <stdio.h>
int main(void) {
  int c; int up = 0; int low = 0; int other = 0;
  while ((c = getchar()) != EOF) {
    if (c >= 'a') { if (c <= 'z') { low++; putchar(c - 32); } else { other++; } }
    else if (c >= 'A' && c <= 'Z') up++;
    else { other++; if (c == '!') break; else continue; }
    if (up > 2) { putchar('.'); up = 0; }
  }
  return low * 100 + up * 10 + other;
}
";

pub const DEEP: &str = "int fall(int n) { int a[1000]; a[0] = n; return fall(n + 1) + a[0]; }
int main(void) { return fall(0); }
";

pub const UNREACHED: &str = "#include <stdio.h>
int common(int a, int b) {
  while (1) {
    if (b == 0) return a;
    { int r = a % b; a = b; b = r; continue; if (r) b = 1; }
    break; if (a) a = 0;
  }
  return a; return b; if (b) a = b; return a;
}
int main(void) { int x = common(84, 36); putchar('0' + x / 10); return x; if (x) x = 2; putchar('n'); }
";

pub const ONE_LEG: &str = "#include <stdio.h>
int main(void) {
  int c; int most = 0;
  while ((c = getchar()) != EOF) { if (c > most) most = c; }
  return most;
}
";

pub const ONE_LONG_LEG: &str = "#include <stdio.h>
int main(void) {
  int c; int n = 0;
  while ((c = getchar()) != EOF) { if (c > 'z') n = n + c; }
  return n;
}
";

pub const TWO_LEGS: &str = "#include <stdio.h>
int main(void) {
  int c; int n = 0;
  while ((c = getchar()) != EOF) { if (c < 'a') n = n + 1; else n = n + 100; }
  return n;
}
";

pub const NESTED: &str = "#include <stdio.h>
int main(void) {
  int c; int low = 0; int other = 0; char seen[128];
  while ((c = getchar()) != EOF) {
    if (c >= 'a') { if (c <= 'z') { low++; seen[c] = 1; } else other++; }
  }
  return low * 100 + other * 10 + seen['k'];
}
";

pub const CALLING_LEG: &str = "#include <stdio.h>
int next(int n) { return n + 1; }
int main(void) {
  int c; int n = 0;
  while ((c = getchar()) != EOF) { if (c == 'o') n = next(n); }
  return n;
}
";
