//! Whole programs with switches, short types and arrays of two sizes, and what a compiler of C makes them do.

/// A text with its input, and what it puts out and returns.
pub(crate) struct Program {
    pub(crate) name: &'static str,
    pub(crate) text: &'static str,
    pub(crate) input: &'static str,
    pub(crate) output: &'static str,
    pub(crate) result: i32,
}

const VM: &str = "#include <stdio.h>
short code[][2] = {
  {0, 10}, {1, 0}, {0, 1}, {1, 1}, {2, 1}, {2, 0}, {5, 0}, {1, 1}, {2, 0}, {0, 1}, {4, 0}, {1, 0}, {2, 0}, {6, 4}, \
      {2, 1}, {7, 0}, {8, 0},
};
long run(int limit) {
  long stack[8];
  long cells[2];
  int top = 0;
  int at = 0;
  int turns = 0;
  while (turns++ < limit) {
    short word = code[at][1];
    switch (code[at++][0]) {
      case 0: stack[top++] = word; continue;
      case 1: cells[word] = stack[--top]; continue;
      case 2: stack[top++] = cells[word]; continue;
      case 3: top--; stack[top - 1] += stack[top]; continue;
      case 4: top--; stack[top - 1] -= stack[top]; continue;
      case 5: top--; stack[top - 1] *= stack[top]; continue;
      case 6: if (stack[--top]) at = word; continue;
      case 7: putchar('!'); break;
      default: return -1;
      case 8: return stack[top - 1];
    }
    putchar('\\n');
  }
  return -2;
}
int main(void) { return (int) run(1000); }
";

const ROMAN: &str = "#include <stdio.h>
char letters[2][7] = {{'I', 'V', 'X', 'L', 'C', 'D', 'M'}};
void digit(int d, int place) {
  char one = letters[0][place * 2];
  char five = place < 3 ? letters[0][place * 2 + 1] : '?';
  char ten = place < 3 ? letters[0][place * 2 + 2] : '?';
  switch (d) {
    case 3: putchar(one);
    case 2: putchar(one);
    case 1: putchar(one);
    case 0: break;
    case 4: putchar(one);
    case 5: putchar(five); break;
    case 9: putchar(one); putchar(ten); break;
    default:
      putchar(five);
      for (d -= 5; d > 0; d--) putchar(one);
  }
}
void roman(int n) {
  digit(n / 1000, 3); digit(n / 100 % 10, 2); digit(n / 10 % 10, 1); digit(n % 10, 0);
  putchar('\\n');
}
int main(void) {
  roman(1); roman(4); roman(9); roman(14); roman(48); roman(399); roman(944); roman(1987); roman(2026); roman(3888);
  return 0;
}
";

const CLIP: &str = "#include <stdio.h>
short clip(long x) {
  switch ((x > 32767) - (x < -32768)) {
    case 1: return 32767;
    case -1: return -32768;
  }
  return x;
}
short add(short a, short b) { return clip(a + b); }
short less(short a, short b) { return clip(a - b); }
short times(short a, short b) { return clip((long) a * b); }
unsigned short add_unsigned(unsigned short a, unsigned short b) {
  unsigned short sum = a + b;
  return sum < a ? 65535 : sum;
}
short values[] = {0, 1, -1, 255, -256, 32767, -32768, 12345,};
int main(void) {
  int i;
  int j;
  unsigned hash = 1;
  for (i = 0; i < 8; i++)
    for (j = 0; j < 8; j++) {
      hash = hash * 31 + add(values[i], values[j]);
      hash = hash * 31 + less(values[i], values[j]);
      hash = hash * 31 + times(values[i], values[j]);
      hash = hash * 31 + add_unsigned(values[i], values[j]);
    }
  return (int) hash;
}
";

const PATHS: &str = "unsigned short far = 65535;
unsigned short way[5][5] = {{0, 3, 65535, 7, 65535}, {65535, 0, 1, 65535, 9}, {65535, 65535, 0, 2, 6}, \
    {65535, 65535, 65535, 0, 2}, {4, 65535, 65535, 65535, 0}};
void shortest(unsigned short way[][5]) {
  int k, i, j;
  for (k = 0; k < 5; k++)
    for (i = 0; i < 5; i++)
      for (j = 0; j < 5; j++) {
        if (way[i][k] == far || way[k][j] == far) continue;
        if (way[i][k] + way[k][j] < way[i][j]) way[i][j] = way[i][k] + way[k][j];
      }
}
int main(void) {
  int i, j, sum = 0;
  shortest(way);
  for (i = 0; i < 5; i++) for (j = 0; j < 5; j++) sum = sum * 3 % 100000 + way[i][j];
  return sum;
}
";

const COMMON: &str = "#include <stdio.h>
char words[2][16] = {{'a', 'l', 'g', 'o', 'r', 'i', 't', 'h', 'm'}, \
    {'l', 'o', 'g', 'a', 'r', 'i', 't', 'h', 'm', 's'}};
int length(char rows[2][16], int row) {
  int n = 0;
  while (rows[row][n]) n++;
  return n;
}
int main(void) {
  short best[17][17];
  int m = length(words, 0), n = length(words, 1), i, j;
  for (i = 0; i <= m; i++)
    for (j = 0; j <= n; j++) {
      if (i == 0 || j == 0) best[i][j] = 0;
      else if (words[0][i - 1] == words[1][j - 1]) best[i][j] = best[i - 1][j - 1] + 1;
      else best[i][j] = best[i - 1][j] > best[i][j - 1] ? best[i - 1][j] : best[i][j - 1];
    }
  i = m; j = n;
  while (i > 0 && j > 0) {
    if (words[0][i - 1] == words[1][j - 1]) { putchar(words[0][i - 1]); i--; j--; }
    else if (best[i - 1][j] > best[i][j - 1]) i--;
    else j--;
  }
  return best[m][n];
}
";

const BRAIN: &str = "#include <stdio.h>
char text[] = {'+', '+', '+', '+', '+', '+', '+', '[', '>', '+', '+', '+', '+', '+', '+', '+', '+', '+', '+', '<', \
    '-', ']', '>', '+', '+', '.', '+', '.', '[', '-', ']', ',', '[', '.', ',', ']', 0};
unsigned char tape[4];
int main(void) {
  short at = 0, head = 0, depth;
  int turns = 0;
  for (;; at++) {
    turns++;
    switch (text[at]) {
      case '>': head++; continue;
      case '<': head--; continue;
      case '+': tape[head]++; continue;
      case '-': tape[head]--; continue;
      case '.': putchar(tape[head]); continue;
      case ',': { int c = getchar(); tape[head] = c == EOF ? 0 : c; continue; }
      case '[':
        if (tape[head]) break;
        depth = 1;
        while (depth) switch (text[++at]) { case '[': depth++; break; case ']': depth--; }
        break;
      case ']':
        if (!tape[head]) break;
        depth = 1;
        while (depth) switch (text[--at]) { case ']': depth++; break; case '[': depth--; }
        break;
      case 0: return turns;
    }
  }
}
";

const DAYS: &str = "int days(int month, int year) {
  switch (month) {
    case 2:
      switch (year % 400) { case 0: return 29; }
      switch (year % 100) { case 0: return 28; }
      return year % 4 == 0 ? 29 : 28;
    default: return 31;
    case 4: case 6: case 9: case 11: return 30;
  }
}
int main(void) {
  long sum = 0;
  short year;
  char month;
  for (year = 1896; year < 1905; year++) for (month = 1; month <= 12; month++) \
      sum = (sum * 32 + days(month, year)) % 1000003;
  for (year = 1999; year < 2002; year++) for (month = 1; month <= 12; month++) \
      sum = (sum * 32 + days(month, year)) % 1000003;
  return (int) sum;
}
";

const SUDOKU: &str = "#include <stdio.h>
char grid[4][4] = {{1, 0, 0, 0}, {0, 0, 3, 0}, {0, 1, 0, 0}, {0, 0, 0, 2}};
int may(char g[][4], int r, int c, int d) {
  int i;
  for (i = 0; i < 4; i++) if (g[r][i] == d || g[i][c] == d || g[r / 2 * 2 + i / 2][c / 2 * 2 + i % 2] == d) return 0;
  return 1;
}
int solve(char g[][4], int at) {
  int d;
  if (at == 16) return 1;
  if (g[at / 4][at % 4]) return solve(g, at + 1);
  for (d = 1; d <= 4; d++) {
    if (!may(g, at / 4, at % 4, d)) continue;
    g[at / 4][at % 4] = d;
    if (solve(g, at + 1)) return 1;
  }
  g[at / 4][at % 4] = 0;
  return 0;
}
int main(void) {
  int i, j;
  if (!solve(grid, 0)) return -1;
  for (i = 0; i < 4; i++) { for (j = 0; j < 4; j++) putchar('0' + grid[i][j]); putchar('\\n'); }
  return 0;
}
";

const PASCAL: &str = "unsigned short row[2][20];
int main(void) {
  int i, j; unsigned sum = 0;
  row[0][0] = 1;
  for (i = 1; i < 20; i++) {
    row[i % 2][0] = 1;
    for (j = 1; j < i; j++) row[i & 1][j] = row[(i + 1) & 1][j - 1] + row[(i + 1) & 1][j];
    row[i % 2][i] = 1;
  }
  for (j = 0; j < 20; j++) sum = sum * 7 + row[1][j];
  return (int) sum;
}
";

pub(crate) const PROGRAMS: &[Program] = &[
    Program {
        name: "a machine with a stack",
        text: VM,
        input: "",
        output: "!\n",
        result: 3628800,
    },
    Program {
        name: "Roman numbers",
        text: ROMAN,
        input: "",
        output: "I\nIV\nIX\nXIV\nXLVIII\nCCCXCIX\nCMXLIV\nMCMLXXXVII\nMMXXVI\nMMMDCCCLXXXVIII\n",
        result: 0,
    },
    Program {
        name: "sums that stop at the edges of short",
        text: CLIP,
        input: "",
        output: "",
        result: -1044924975,
    },
    Program {
        name: "shortest paths",
        text: PATHS,
        input: "",
        output: "",
        result: 39320,
    },
    Program {
        name: "a longest common subsequence",
        text: COMMON,
        input: "",
        output: "mhtirol",
        result: 7,
    },
    Program {
        name: "an interpreter of eight commands",
        text: BRAIN,
        input: "Hi",
        output: "HIHi",
        result: 268,
    },
    Program {
        name: "days of months",
        text: DAYS,
        input: "",
        output: "",
        result: 641183,
    },
    Program {
        name: "a square of numbers filled",
        text: SUDOKU,
        input: "",
        output: "1324\n4231\n2143\n3412\n",
        result: 0,
    },
    Program {
        name: "two rows of Pascal's triangle",
        text: PASCAL,
        input: "",
        output: "",
        result: 1919942656,
    },
];
