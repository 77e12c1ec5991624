// The texts of units that are longer than a line, or stand in several programs.

pub(crate) const RECURSION: &str =
    "int f(int n) { register int r; if (n == 0) { return 0; } r = f(n - 1); return r; } int main(void) { char pad[180]; register int r; r = f(3234); return r; }";

pub(crate) const DEEP_RECURSION: &str =
    "int f(int n) { register int r; if (n == 0) { return 0; } r = f(n - 1); return r; } int main(void) { char pad[180]; register int r; r = f(3235); return r; }";

pub(crate) const STRUCTS: &str =
    "struct s { char a; int b; char c; }; struct s t[3] = { {1, 100000, 2}, {3, 200000, 4}, {5, 300000, 6} }; int main(void) { register struct s *p; register int n; n = 0; for (p = t; p < t + 3; p = p + 1) { n = n + p->a + p->b + p->c; } if (n == 600021) { return sizeof(struct s); } return 0; }";

pub(crate) const PLACE_FIRST: &str =
    "int t[2]; int i; int f(void) { i = 1; return 5; } int main(void) { i = 0; t[i] = f(); return t[0] * 10 + t[1]; }";

pub(crate) const RETURNED_CHAR: &str =
    "char f(void) { return 200; } int main(void) { register int r; r = f(); return r == -56; }";

pub(crate) const STORED_CHARS: &str =
    "int main(void) { char c; register signed char r; unsigned char u; c = 200; r = 200; u = 200; return c == -56 && r == -56 && u == 200; }";

pub(crate) const WORDS: &str =
    "int main(void) { return 2147483647 + 1 == -2147483647 - 1 && -7 / 2 == -3 && -7 % 2 == -1 && (unsigned)(1 << 31) == 2147483648u; }";

pub(crate) const NESTED: &str =
    "int main(void) { register int a, b, c; a = 1; b = 2; c = 0; return (a && (b && a)) + 2 * (a && (b && c)) + 4 * ((c || b) && (a || c)) + 8 * ((c && a) || (c || c)); }";

pub(crate) const STEPPED: &str =
    "int main(void) { register int i, n; n = 0; for (i = 0; i < 10; i = i + 1) { if (i % 2) { if (i) { continue; } } n = n + i; } return n; }";

pub(crate) const LOOPS: &str =
    "int main(void) { register int i, n; i = 0; n = 0; while (1) { do { i = i + 1; if (i == 3) { continue; } else if (i > 6) { break; } n = n + i; } while (i != 3); if (i > 6) { break; } } return n; }";

pub(crate) const COPY: &str =
    "int main(void) { register int c; c = getbyte(); while (c != -1) { putbyte(c); c = getbyte(); } c = getbyte(); return c == -1; }";

pub(crate) const COUNTS: &str =
    "static int g = 3; int f(void); int main(void) { register int r; r = f(); return r * 10 + g; }";

pub(crate) const COUNTED: &str = "static int g = 4; int f(void) { return g; }";

pub(crate) const TAIL: &str = "extern int t[5]; int *p = &t[2]; int main(void) { return *p; }";

pub(crate) const TENS: &str = "int t[5] = {10, 20, 30, 40, 50};";

pub(crate) const GREET: &str =
    "static int end(void) { putbyte(33); return 0; } int greet(void) { putbyte(72); putbyte(105); end(); return 0; }";

pub(crate) const GREETS: &str =
    "int greet(void); static int end(void) { putbyte(10); return 0; } int main(void) { greet(); greet(); end(); return 3; }";

pub(crate) const STACK: &str = "
static int cells[64];
static int top;
int push(int v) { if (top == 64) { return 0; } cells[top] = v; top = top + 1; return 1; }
int pop(int *into) { if (top == 0) { return 0; } top = top - 1; *into = cells[top]; return 1; }
";

pub(crate) const OPERATORS: &str = "
int push(int v);
int pop(int *into);
int apply(int op) {
  int a, b;
  register int ok;
  ok = pop(&b);
  if (ok == 0) { return 0; }
  ok = pop(&a);
  if (ok == 0) { return 0; }
  if (op == '+') { a = a + b; } else if (op == '-') { a = a - b; }
  else if (op == '*') { a = a * b; } else if (b == 0) { return 0; } else { a = a / b; }
  ok = push(a);
  return ok;
}
";

pub(crate) const PRINT: &str = "
static const char bad[] = \"error\\n\";
void print_bad(void) { register const char *p; for (p = bad; *p != 0; p = p + 1) { putbyte(*p); } }
void print_int(int v) {
  char digits[12];
  register unsigned u;
  register int n;
  n = 0; u = v;
  if (v < 0) { putbyte('-'); u = 0u - u; }
  do { digits[n] = '0' + u % 10u; n = n + 1; u = u / 10u; } while (u != 0u);
  while (n > 0) { n = n - 1; putbyte(digits[n]); }
  putbyte('\\n');
}
";

pub(crate) const CALCULATOR: &str = "
int push(int v);
int pop(int *into);
int apply(int op);
void print_int(int v);
void print_bad(void);
int main(void) {
  register int c, n, digits, ok, r;
  int v;
  n = 0; digits = 0; ok = 1;
  c = getbyte();
  while (c != -1) {
    if (c >= '0' && c <= '9') { n = n * 10 + (c - '0'); digits = 1; }
    else {
      if (digits) { r = push(n); ok = ok & r; n = 0; digits = 0; }
      if (c == '+' || c == '-' || c == '*' || c == '/') { r = apply(c); ok = ok & r; }
      if (c == '\\n') {
        r = pop(&v); ok = ok & r;
        if (ok) { print_int(v); } else { print_bad(); }
        ok = 1;
      }
    }
    c = getbyte();
  }
  return 0;
}
";

pub(crate) const LINE: &str = "
static char digits[12];
static int count = 0;
void line(int n) {
  register unsigned rest;
  count = 0;
  rest = n;
  if (n < 0) { putbyte('-'); rest = 0u - rest; }
  do { digits[count] = '0' + rest % 10u; count = count + 1; rest = rest / 10u; } while (rest != 0u);
  while (count > 0) { count = count - 1; putbyte(digits[count]); }
  putbyte('\\n');
}
";

pub(crate) const QUEENS: &str = "
void line(int n);
static int columns[8]; static int up[16]; static int down[16];
int place(int row) {
  int column; int all; int more;
  if (row == 6) { return 1; }
  all = 0;
  for (column = 0; column < 6; column = column + 1) {
    if (columns[column] || up[row + column] || down[row - column + 8]) { continue; }
    columns[column] = 1; up[row + column] = 1; down[row - column + 8] = 1;
    more = place(row + 1);
    all = all + more;
    columns[column] = 0; up[row + column] = 0; down[row - column + 8] = 0;
  }
  return all;
}
int main(void) { int n; n = place(0); line(n); return n; }
";
