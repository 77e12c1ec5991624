// What is printed.
use cc_base::Text;
use std::alloc::{AllocError, Global};
use text_grammar::SyntaxFault;
use text_parser::parse;
use text_print::print;

// The canonical text of a text, or nothing where it is no unit's text or memory fails.
fn printed(alloc: Global, text: &[u8]) -> Option<Text> {
    let tree = parse(alloc, text).ok()?;
    print(alloc, &tree).ok()
}

#[test]
fn prints_each_object(rt: HostRuntime) -> Result<(), AllocError> {
    let table: [(&[u8], &[u8]); 11] = [
        (b"", b"\n"),
        (
            b"int main(){return 7;}",
            b"int main ( void ) { return 7 ; }\n",
        ),
        (b"signed a;signed int b;", b"int a ; int b ;\n"),
        (b"signed char a;unsigned b;", b"char a ; unsigned int b ;\n"),
        (b"unsigned char a,*b;", b"unsigned char a , * b ;\n"),
        (
            b"const void*p;extern char c;",
            b"const void * p ; extern char c ;\n",
        ),
        (
            b"static struct s a[2][3];",
            b"static struct s a [ 2 ] [ 3 ] ;\n",
        ),
        (b"extern int a[];", b"extern int a [ ] ;\n"),
        (b"int a[]={1,2,};", b"int a [ ] = { 1 , 2 } ;\n"),
        (
            b"int a[]={{1},{2,},};",
            b"int a [ ] = { { 1 } , { 2 } } ;\n",
        ),
        (
            b"char a[3]=\"a\\n\\\"\";",
            b"char a [ 3 ] = \"\\x61\\x0a\\x22\" ;\n",
        ),
    ];
    for (text, expected) in table {
        let found = printed(rt.alloc(), text);
        assert!(rt; matches!(&found, Some(found) if found.as_slice() == expected));
    }
    Ok(())
}

#[test]
fn prints_each_expression(rt: HostRuntime) -> Result<(), AllocError> {
    let table: [(&[u8], &[u8]); 11] = [
        (
            b"int a=0x1F+017+0+7U+4294967295u+2147483648u;",
            b"int a = ( ( ( ( 31 + 15 ) + 0 ) + 7u ) + 4294967295u ) + 2147483648u ;\n",
        ),
        (
            b"char a[9]=\"\\n\\t\\r\\\\\\'\\\"\\0123\\x4a\";",
            b"char a [ 9 ] = \"\\x0a\\x09\\x0d\\x5c\\x27\\x22\\x0a\\x33\\x4a\" ;\n",
        ),
        (
            b"int a=0xFFFFFFFF-037777777777-2147483647;",
            b"int a = ( 4294967295u - 4294967295u ) - 2147483647 ;\n",
        ),
        (b"int a='a'-'\\377';", b"int a = '\\x61' - '\\xff' ;\n"),
        (b"int a=((b));", b"int a = b ;\n"),
        (b"int a=- -b*!c;", b"int a = ( - ( - b ) ) * ( ! c ) ;\n"),
        (b"int a=*b[1].c->d;", b"int a = * b [ 1 ] . c -> d ;\n"),
        (b"int a=(*b)[c+1].d;", b"int a = ( * b ) [ c + 1 ] . d ;\n"),
        (
            b"int a=(int*)b+sizeof(char)-sizeof c;",
            b"int a = ( ( ( int * ) b ) + ( sizeof ( char ) ) ) - ( sizeof c ) ;\n",
        ),
        (
            b"int a=sizeof((int)b);",
            b"int a = sizeof ( ( int ) b ) ;\n",
        ),
        (b"int a=~(b|c);", b"int a = ~ ( b | c ) ;\n"),
    ];
    for (text, expected) in table {
        let found = printed(rt.alloc(), text);
        assert!(rt; matches!(&found, Some(found) if found.as_slice() == expected));
    }
    Ok(())
}

#[test]
fn prints_each_function_and_statement(rt: HostRuntime) -> Result<(), AllocError> {
    let table: [(&[u8], &[u8]); 8] = [
        (
            b"int f(int,char*p);void g(struct s*q){}",
            b"int f ( int , char * p ) ; void g ( struct s * q ) { }\n",
        ),
        (
            b"void f(const void);void g(const char*p,int);",
            b"void f ( const void ) ; void g ( const char * p , int ) ;\n",
        ),
        (
            b"extern struct s*f(int a);static int g(void){}",
            b"extern struct s * f ( int a ) ; static int g ( void ) { }\n",
        ),
        (
            b"void f(){const char a=1,*b[2];for(;a;){}}",
            b"void f ( void ) { const char a = 1 , * b [ 2 ] ; for ( ; a ; ) { } }\n",
        ),
        (
            b"struct s{int a,*b[2];const char c;};",
            b"struct s { int a , * b [ 2 ] ; const char c ; } ;\n",
        ),
        (
            b"void f(){register int i=1,j;int k[2];;{}f();a=f(1,b);-a=2;(a+b)=3;(a)=4;}",
            b"void f ( void ) { register int i = 1 , j ; int k [ 2 ] ; ; { } f ( ) ; a = f ( 1 , b ) ; - a = 2 ; ( a + b ) = 3 ; a = 4 ; }\n",
        ),
        (
            b"void f(){if(a){}else if(b){;}else{return;}while(1){break;}do{continue;}while(a);for(;;){}for(a=0;a<1;f()){}}",
            b"void f ( void ) { if ( a ) { } else if ( b ) { ; } else { return ; } while ( 1 ) { break ; } do { continue ; } while ( a ) ; for ( ; ; ) { } for ( a = 0 ; a < 1 ; f ( ) ) { } }\n",
        ),
        (
            b"void f(){if(a){if(b){}}else{}}",
            b"void f ( void ) { if ( a ) { if ( b ) { } } else { } }\n",
        ),
    ];
    for (text, expected) in table {
        let found = printed(rt.alloc(), text);
        assert!(rt; matches!(&found, Some(found) if found.as_slice() == expected));
    }
    Ok(())
}

#[test]
fn prints_each_operator(rt: HostRuntime) -> Result<(), AllocError> {
    let table: [(&[u8], &[u8]); 8] = [
        (
            b"int a=b||c&&d|e^f&g==h;",
            b"int a = b || ( c && ( d | ( e ^ ( f & ( g == h ) ) ) ) ) ;\n",
        ),
        (
            b"int a=b!=c<d<<e+f*g;",
            b"int a = b != ( c < ( d << ( e + ( f * g ) ) ) ) ;\n",
        ),
        (b"int a=b>c<=d>=e;", b"int a = ( ( b > c ) <= d ) >= e ;\n"),
        (b"int a=b/c%d>>e;", b"int a = ( ( b / c ) % d ) >> e ;\n"),
        (b"int a=b-c-d;", b"int a = ( b - c ) - d ;\n"),
        (b"int a=b-(c-d);", b"int a = b - ( c - d ) ;\n"),
        (b"int a=~!-*&b;", b"int a = ~ ( ! ( - ( * ( & b ) ) ) ) ;\n"),
        (
            b"int a=sizeof(int)-1;",
            b"int a = ( sizeof ( int ) ) - 1 ;\n",
        ),
    ];
    for (text, expected) in table {
        let found = printed(rt.alloc(), text);
        assert!(rt; matches!(&found, Some(found) if found.as_slice() == expected));
    }
    Ok(())
}

#[test]
fn what_is_printed_reads_as_the_same_tree(rt: HostRuntime) -> Result<(), AllocError> {
    let table: [&[u8]; 12] = [
        b"struct s { int a, *b[2]; const char c; struct s *d; }; struct s t;",
        b"int x, *y = 0, z[] = { 1, 2, }, w[2][3], v[][4] = {{1}, {2}};",
        b"static unsigned char s[4] = \"ab\"; extern signed int e; const unsigned u = 1u;",
        b"void f(); int g(void); char *h(int, unsigned *p, struct s *); signed char k(const char *);",
        b"static int f(int a, int *b) { register int i = 1, j; int k[2], *l; const int m = 3; }",
        b"void f(void) { ; { } { ; } g(); g(1, a + 2); x = 1; x = g(); x = g(1); *p = a; p->q.r[1] = h; }",
        b"void f(void) { if (a) { } if (a) { } else { } if (a) { } else if (b) { } else if (c) { } else { } }",
        b"void f(void) { for (;;) { } for (i = 0; i < 9; i = i + 1) { } for (g(); ; g()) { } return a; }",
        b"int x = a || b && c | d ^ e & f == g != h < i > j <= k >= l << m >> n + o - p * q / r % s;",
        b"int x = - ~ ! * & a + (int) a + (char *) b - (struct s * *) (c) + sizeof (int *) + sizeof (a)[1];",
        b"int x = 'a' + '\\n' + '\\x41' + '\\101' + 010 + 0x1F + 7u + sizeof - a + sizeof sizeof (int);",
        b"void v(void, int); void w(void *); void x(const void); void y(void a);",
    ];
    for text in table {
        let once = printed(rt.alloc(), text);
        assert!(rt; once.is_some());
        if let Some(once) = once {
            let again = printed(rt.alloc(), once.as_slice());
            assert!(rt; matches!(&again, Some(again) if again.as_slice() == once.as_slice()));
        }
    }
    Ok(())
}

// A text of a beginning, `count` openings, a middle, as many closings, and an end.
fn nested(alloc: Global, parts: [&[u8]; 5], count: usize) -> Result<Vec<u8>, AllocError> {
    let [first, open, middle, close, last] = parts;
    let mut text = Vec::from_slice(alloc, first)?;
    for _ in 0..count {
        text.extend_from_slice(open)?;
    }
    text.extend_from_slice(middle)?;
    for _ in 0..count {
        text.extend_from_slice(close)?;
    }
    text.extend_from_slice(last)?;
    Ok(text)
}

// The deepest texts that the limits of 200 brackets and 1,000 tokens in a row let through are read, and their trees are
// printed and let go, within the usual stack. With one more of what nests they are too deep.
#[test]
fn the_deepest_trees_are_printed(rt: HostRuntime) -> Result<(), AllocError> {
    let negated = nested(rt.alloc(), [b"", b"-", b"7", b"", b""], 596)?;
    let indexed = nested(rt.alloc(), [b"", b"-", b"7", b"", b""], 396)?;
    let row = nested(rt.alloc(), [b"", b"-", b"7", b"", b""], 999)?;
    let returned = nested(rt.alloc(), [b"return ", b"-", b"7", b"", b";"], 998)?;
    let table: [([&[u8]; 5], usize); 8] = [
        ([b"int x=", b"(", &negated, b")", b";"], 200),
        ([b"int x=", b"a[", &indexed, b"]", b";"], 200),
        ([b"int x=", b"{", &row, b"}", b";"], 200),
        ([b"void f(){", b"{", &returned, b"}", b"}"], 199),
        ([b"void f(){", b"if(a){}else{", &returned, b"}", b"}"], 199),
        ([b"void f(){", b"do{", &returned, b"}while(a);", b"}"], 199),
        ([b"int x=1", b"+1", b"", b"", b";"], 498),
        ([b"int x=a", b".b", b"", b"", b";"], 498),
    ];
    for (parts, count) in table {
        let deepest = nested(rt.alloc(), parts, count)?;
        assert!(rt; printed(rt.alloc(), &deepest).is_some());
        let deeper = nested(rt.alloc(), parts, count + 1)?;
        let answer = parse(rt.alloc(), &deeper).err();
        assert!(rt; matches!(answer, Some(SyntaxFault::Deep { .. })));
    }
    Ok(())
}
