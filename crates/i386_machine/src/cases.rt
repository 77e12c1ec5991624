//! What the processor makes of short programs, printed by scripts/processor.py: their bytes, and eax, ecx, edx and ebx
//! after them. They begin with zeros in registers and on the stack.

pub(crate) const PROGRAMS: [(&[u8], [u32; 4]); 52] = [
    // mov $0x12345678,%eax; mov %eax,8(%esp); mov 8(%esp),%ebx; mov %ebx,%ecx
    (
        b"\xb8\x78\x56\x34\x12\x89\x44\x24\x08\x8b\x5c\x24\x08\x89\xd9",
        [0x1234_5678, 0x1234_5678, 0, 0x1234_5678],
    ),
    // mov $0x12345684,%eax; mov %al,4(%esp); movzbl 4(%esp),%ecx; movsbl 4(%esp),%edx; mov $-1,%ebx; mov %al,%bl
    (
        b"\xb8\x84\x56\x34\x12\x88\x44\x24\x04\x0f\xb6\x4c\x24\x04\x0f\xbe\x54\x24\x04\xbb\xff\xff\xff\xff\x88\xc3",
        [0x1234_5684, 132, 0xffff_ff84, 0xffff_ff84],
    ),
    // movl $0x89abcdef,4(%esp); mov 4(%esp),%eax; movzbl 5(%esp),%ecx; movsbl 7(%esp),%edx; mov 2(%esp),%ebx
    (
        b"\xc7\x44\x24\x04\xef\xcd\xab\x89\x8b\x44\x24\x04\x0f\xb6\x4c\x24\x05\x0f\xbe\x54\x24\x07\x8b\x5c\x24\x02",
        [0x89ab_cdef, 205, 0xffff_ff89, 0xcdef_0000],
    ),
    // mov $0x1234567f,%ebx; movsbl %bl,%eax; mov $0x123456fe,%edx; movsbl %dl,%ecx; movzbl %dl,%edx
    (
        b"\xbb\x7f\x56\x34\x12\x0f\xbe\xc3\xba\xfe\x56\x34\x12\x0f\xbe\xca\x0f\xb6\xd2",
        [127, 0xffff_fffe, 254, 0x1234_567f],
    ),
    // movl $0x11223344,%ecx; mov $0x55667788,%edx; mov %cl,%dl; mov %edx,%eax
    (
        b"\xb9\x44\x33\x22\x11\xba\x88\x77\x66\x55\x88\xca\x89\xd0",
        [0x5566_7744, 0x1122_3344, 0x5566_7744, 0],
    ),
    // mov $3,%ecx; lea -8(%ecx,%ecx,8),%eax; lea 0x10(,%ecx,4),%edx; mov $0x80000000,%ebx; lea 0x7fffffff(%ebx,%ebx,2),%ebx
    (
        b"\xb9\x03\x00\x00\x00\x8d\x44\xc9\xf8\x8d\x14\x8d\x10\x00\x00\x00\xbb\x00\x00\x00\x80\x8d\x9c\x5b\xff\xff\xff\x7f",
        [19, 3, 28, 0xffff_ffff],
    ),
    // mov %esp,%esi; mov $-2,%edi; movl $77,-8(%esp); mov (%esi,%edi,4),%eax; mov %esp,%ebp; mov -8(%ebp),%ecx
    (
        b"\x89\xe6\xbf\xfe\xff\xff\xff\xc7\x44\x24\xf8\x4d\x00\x00\x00\x8b\x04\xbe\x89\xe5\x8b\x4d\xf8",
        [77, 77, 0, 0],
    ),
    // mov $0x7fffffff,%eax; mov $1,%ebx; add %ebx,%eax; setb %cl; sete %dl; setl %bl
    (
        b"\xb8\xff\xff\xff\x7f\xbb\x01\x00\x00\x00\x01\xd8\x0f\x92\xc1\x0f\x94\xc2\x0f\x9c\xc3",
        [0x8000_0000, 0, 0, 0],
    ),
    // mov $0xffffffff,%eax; mov $1,%ebx; add %ebx,%eax; setb %cl; sete %dl; setl %bl
    (
        b"\xb8\xff\xff\xff\xff\xbb\x01\x00\x00\x00\x01\xd8\x0f\x92\xc1\x0f\x94\xc2\x0f\x9c\xc3",
        [0, 1, 1, 0],
    ),
    // mov $0x80000000,%eax; mov $1,%ebx; sub %ebx,%eax; setb %cl; sete %dl; setl %bl
    (
        b"\xb8\x00\x00\x00\x80\xbb\x01\x00\x00\x00\x29\xd8\x0f\x92\xc1\x0f\x94\xc2\x0f\x9c\xc3",
        [0x7fff_ffff, 0, 0, 1],
    ),
    // mov $1,%eax; mov $2,%ebx; sub %ebx,%eax; setb %cl; sete %dl; setl %bl
    (
        b"\xb8\x01\x00\x00\x00\xbb\x02\x00\x00\x00\x29\xd8\x0f\x92\xc1\x0f\x94\xc2\x0f\x9c\xc3",
        [0xffff_ffff, 1, 0, 1],
    ),
    // movl $5,(%esp); mov $7,%eax; sub %eax,(%esp); mov (%esp),%eax; setb %cl; sete %dl; setl %bl
    (
        b"\xc7\x04\x24\x05\x00\x00\x00\xb8\x07\x00\x00\x00\x29\x04\x24\x8b\x04\x24\x0f\x92\xc1\x0f\x94\xc2\x0f\x9c\xc3",
        [0xffff_fffe, 1, 0, 1],
    ),
    // movl $0xff00ff00,(%esp); mov $0x0ff00ff0,%eax; and %eax,(%esp); mov (%esp),%ebx; or %eax,(%esp); mov (%esp),%ecx; xor %eax,(%esp); mov (%esp),%edx
    (
        b"\xc7\x04\x24\x00\xff\x00\xff\xb8\xf0\x0f\xf0\x0f\x21\x04\x24\x8b\x1c\x24\x09\x04\x24\x8b\x0c\x24\x31\x04\x24\x8b\x14\x24",
        [0x0ff0_0ff0, 0x0ff0_0ff0, 0, 0x0f00_0f00],
    ),
    // mov $1,%ecx; cmp %ecx,%eax; mov $0xf0,%eax; mov $0x0f,%ebx; test %ebx,%eax; setb %cl; sete %dl; setl %bl
    (
        b"\xb9\x01\x00\x00\x00\x39\xc8\xb8\xf0\x00\x00\x00\xbb\x0f\x00\x00\x00\x85\xd8\x0f\x92\xc1\x0f\x94\xc2\x0f\x9c\xc3",
        [240, 0, 1, 0],
    ),
    // mov $5,%eax; mov $6,%ebx; cmp %ebx,%eax; setb %cl; sete %dl; setl %bl
    (
        b"\xb8\x05\x00\x00\x00\xbb\x06\x00\x00\x00\x39\xd8\x0f\x92\xc1\x0f\x94\xc2\x0f\x9c\xc3",
        [5, 1, 0, 1],
    ),
    // movl $9,(%esp); mov $9,%eax; cmp %eax,(%esp); setb %cl; sete %dl; setl %bl
    (
        b"\xc7\x04\x24\x09\x00\x00\x00\xb8\x09\x00\x00\x00\x39\x04\x24\x0f\x92\xc1\x0f\x94\xc2\x0f\x9c\xc3",
        [9, 0, 1, 0],
    ),
    // mov $1,%esi; add $0x7fffffff,%esi; mov %esi,%eax; setb %cl; sete %dl; setl %bl
    (
        b"\xbe\x01\x00\x00\x00\x81\xc6\xff\xff\xff\x7f\x89\xf0\x0f\x92\xc1\x0f\x94\xc2\x0f\x9c\xc3",
        [0x8000_0000, 0, 0, 0],
    ),
    // mov $0x12345678,%esi; and $0xff00ff00,%esi; mov %esi,%eax; setb %cl; sete %dl; setl %bl
    (
        b"\xbe\x78\x56\x34\x12\x81\xe6\x00\xff\x00\xff\x89\xf0\x0f\x92\xc1\x0f\x94\xc2\x0f\x9c\xc3",
        [0x1200_5600, 0, 0, 0],
    ),
    // mov $0x1000,%esi; sub $0x1001,%esi; mov %esi,%eax; setb %cl; sete %dl; setl %bl
    (
        b"\xbe\x00\x10\x00\x00\x81\xee\x01\x10\x00\x00\x89\xf0\x0f\x92\xc1\x0f\x94\xc2\x0f\x9c\xc3",
        [0xffff_ffff, 1, 0, 1],
    ),
    // movl $0x12345678,(%esp); cmpl $0x12345678,(%esp); mov (%esp),%eax; setb %cl; sete %dl; setl %bl
    (
        b"\xc7\x04\x24\x78\x56\x34\x12\x81\x3c\x24\x78\x56\x34\x12\x8b\x04\x24\x0f\x92\xc1\x0f\x94\xc2\x0f\x9c\xc3",
        [0x1234_5678, 0, 1, 0],
    ),
    // mov $1,%eax; add $-1,%eax; setb %cl; sete %dl; setl %bl
    (
        b"\xb8\x01\x00\x00\x00\x83\xc0\xff\x0f\x92\xc1\x0f\x94\xc2\x0f\x9c\xc3",
        [0, 1, 1, 0],
    ),
    // mov $0x12345678,%eax; and $-16,%eax; setb %cl; sete %dl; setl %bl
    (
        b"\xb8\x78\x56\x34\x12\x83\xe0\xf0\x0f\x92\xc1\x0f\x94\xc2\x0f\x9c\xc3",
        [0x1234_5670, 0, 0, 0],
    ),
    // mov $0x7fffffff,%eax; sub $-128,%eax; setb %cl; sete %dl; setl %bl
    (
        b"\xb8\xff\xff\xff\x7f\x83\xe8\x80\x0f\x92\xc1\x0f\x94\xc2\x0f\x9c\xc3",
        [0x8000_007f, 1, 0, 0],
    ),
    // cmp $-1,%eax; setb %cl; sete %dl; setl %bl
    (
        b"\x83\xf8\xff\x0f\x92\xc1\x0f\x94\xc2\x0f\x9c\xc3",
        [0, 1, 0, 0],
    ),
    // mov $0x12345678,%eax; mov $0x9abcdef1,%ecx; imul %ecx,%eax; mov $-3,%edx; movl $7,(%esp); imul (%esp),%edx
    (
        b"\xb8\x78\x56\x34\x12\xb9\xf1\xde\xbc\x9a\x0f\xaf\xc1\xba\xfd\xff\xff\xff\xc7\x04\x24\x07\x00\x00\x00\x0f\xaf\x14\x24",
        [0x3661_76f8, 0x9abc_def1, 0xffff_ffeb, 0],
    ),
    // mov $0x12345678,%eax; not %eax; movl $1,(%esp); notl (%esp); mov (%esp),%ecx
    (
        b"\xb8\x78\x56\x34\x12\xf7\xd0\xc7\x04\x24\x01\x00\x00\x00\xf7\x14\x24\x8b\x0c\x24",
        [0xedcb_a987, 0xffff_fffe, 0, 0],
    ),
    // mov $1,%eax; mov $1,%ecx; cmp %ecx,%eax; not %eax; setb %cl; sete %dl; setl %bl
    (
        b"\xb8\x01\x00\x00\x00\xb9\x01\x00\x00\x00\x39\xc8\xf7\xd0\x0f\x92\xc1\x0f\x94\xc2\x0f\x9c\xc3",
        [0xffff_fffe, 0, 1, 0],
    ),
    // mov $0x80000000,%eax; neg %eax; mov $5,%ecx; neg %ecx; neg %edx; movl $-1,(%esp); negl (%esp); mov (%esp),%ebx
    (
        b"\xb8\x00\x00\x00\x80\xf7\xd8\xb9\x05\x00\x00\x00\xf7\xd9\xf7\xda\xc7\x04\x24\xff\xff\xff\xff\xf7\x1c\x24\x8b\x1c\x24",
        [0x8000_0000, 0xffff_fffb, 0, 1],
    ),
    // mov $7,%eax; mov $2,%ecx; div %ecx
    (
        b"\xb8\x07\x00\x00\x00\xb9\x02\x00\x00\x00\xf7\xf1",
        [3, 2, 1, 0],
    ),
    // mov $0xffffffff,%eax; mov $1,%edx; movl $2,(%esp); divl (%esp)
    (
        b"\xb8\xff\xff\xff\xff\xba\x01\x00\x00\x00\xc7\x04\x24\x02\x00\x00\x00\xf7\x34\x24",
        [0xffff_ffff, 0, 1, 0],
    ),
    // mov $-7,%eax; cltd; mov $2,%ecx; idiv %ecx
    (
        b"\xb8\xf9\xff\xff\xff\x99\xb9\x02\x00\x00\x00\xf7\xf9",
        [0xffff_fffd, 2, 0xffff_ffff, 0],
    ),
    // mov $7,%eax; cltd; movl $-2,(%esp); idivl (%esp)
    (
        b"\xb8\x07\x00\x00\x00\x99\xc7\x04\x24\xfe\xff\xff\xff\xf7\x3c\x24",
        [0xffff_fffd, 0, 1, 0],
    ),
    // mov $0x80000000,%eax; cltd; mov $1,%ecx; idiv %ecx
    (
        b"\xb8\x00\x00\x00\x80\x99\xb9\x01\x00\x00\x00\xf7\xf9",
        [0x8000_0000, 1, 0, 0],
    ),
    // mov $0x7fffffff,%eax; mov $-1,%edx; cltd; mov $-1,%ecx; idiv %ecx
    (
        b"\xb8\xff\xff\xff\x7f\xba\xff\xff\xff\xff\x99\xb9\xff\xff\xff\xff\xf7\xf9",
        [0x8000_0001, 0xffff_ffff, 0, 0],
    ),
    // mov $0x80000001,%eax; mov %eax,%edx; mov %eax,%ebx; mov $4,%ecx; shl %cl,%eax; shr %cl,%edx; sar %cl,%ebx
    (
        b"\xb8\x01\x00\x00\x80\x89\xc2\x89\xc3\xb9\x04\x00\x00\x00\xd3\xe0\xd3\xea\xd3\xfb",
        [16, 4, 0x0800_0000, 0xf800_0000],
    ),
    // mov $0x80000001,%eax; mov %eax,%edx; mov %eax,%ebx; mov $0x123f,%ecx; shl %cl,%eax; shr %cl,%edx; sar %cl,%ebx
    (
        b"\xb8\x01\x00\x00\x80\x89\xc2\x89\xc3\xb9\x3f\x12\x00\x00\xd3\xe0\xd3\xea\xd3\xfb",
        [0x8000_0000, 0x0000_123f, 1, 0xffff_ffff],
    ),
    // movl $-9,(%esp); mov $32,%ecx; sarl %cl,(%esp); mov (%esp),%eax; mov $1,%ecx; sarl %cl,(%esp); mov (%esp),%edx; shrl %cl,(%esp); mov (%esp),%ebx; shl %cl,%ecx
    (
        b"\xc7\x04\x24\xf7\xff\xff\xff\xb9\x20\x00\x00\x00\xd3\x3c\x24\x8b\x04\x24\xb9\x01\x00\x00\x00\xd3\x3c\x24\x8b\x14\x24\xd3\x2c\x24\x8b\x1c\x24\xd3\xe1",
        [0xffff_fff7, 2, 0xffff_fffb, 0x7fff_fffd],
    ),
    // mov $1,%eax; mov $2,%ebx; push %eax; push %ebx; pop %ecx; pop %edx
    (
        b"\xb8\x01\x00\x00\x00\xbb\x02\x00\x00\x00\x50\x53\x59\x5a",
        [1, 2, 1, 2],
    ),
    // push %esp; pop %eax; sub %esp,%eax; mov %esp,%ebx; push %ebx; mov $9,%ecx; pop %esp; sub %esp,%ebx
    (
        b"\x54\x58\x29\xe0\x89\xe3\x53\xb9\x09\x00\x00\x00\x5c\x29\xe3",
        [0, 9, 0, 0],
    ),
    // push %eax; mov %esp,%eax; sub $4,%esp; mov %eax,(%esp); pop %esp; sub %esp,%eax
    (
        b"\x50\x89\xe0\x83\xec\x04\x89\x04\x24\x5c\x29\xe0",
        [0, 0, 0, 0],
    ),
    // call 1f; mov $1,%ebx; jmp 2f; 1: mov $5,%eax; ret; 2: mov $6,%ecx
    (
        b"\xe8\x07\x00\x00\x00\xbb\x01\x00\x00\x00\xeb\x06\xb8\x05\x00\x00\x00\xc3\xb9\x06\x00\x00\x00",
        [5, 6, 0, 1],
    ),
    // {disp32} jmp 1f; mov $1,%eax; 1: mov $2,%ebx
    (
        b"\xe9\x05\x00\x00\x00\xb8\x01\x00\x00\x00\xbb\x02\x00\x00\x00",
        [0, 0, 0, 2],
    ),
    // mov $3,%ecx; 1: add $5,%eax; sub $1,%ecx; jne 1b
    (
        b"\xb9\x03\x00\x00\x00\x83\xc0\x05\x83\xe9\x01\x75\xf8",
        [15, 0, 0, 0],
    ),
    // mov $3,%ecx; 1: add $5,%eax; sub $1,%ecx; {disp32} jg 1b; mov $8,%edx
    (
        b"\xb9\x03\x00\x00\x00\x83\xc0\x05\x83\xe9\x01\x0f\x8f\xf4\xff\xff\xff\xba\x08\x00\x00\x00",
        [15, 0, 8, 0],
    ),
    // mov $1,%ecx; cmp %ecx,%eax; jl 1f; mov $7,%ebx; 1: {disp32} jge 2f; mov $9,%edx; 2:
    (
        b"\xb9\x01\x00\x00\x00\x39\xc8\x7c\x05\xbb\x07\x00\x00\x00\x0f\x8d\x05\x00\x00\x00\xba\x09\x00\x00\x00",
        [0, 1, 9, 0],
    ),
    // mov $0x1,%eax; mov $0x2,%ebx; cmp %ebx,%eax; setb 0(%esp); setae 1(%esp); sete 2(%esp); setne 3(%esp); setbe 4(%esp); seta 5(%esp); setl 6(%esp); setge 7(%esp); setle 8(%esp); setg 9(%esp); mov (%esp),%eax; mov 4(%esp),%ecx; mov 8(%esp),%edx
    (
        b"\xb8\x01\x00\x00\x00\xbb\x02\x00\x00\x00\x39\xd8\x0f\x92\x04\x24\x0f\x93\x44\x24\x01\x0f\x94\x44\x24\x02\x0f\x95\x44\x24\x03\x0f\x96\x44\x24\x04\x0f\x97\x44\x24\x05\x0f\x9c\x44\x24\x06\x0f\x9d\x44\x24\x07\x0f\x9e\x44\x24\x08\x0f\x9f\x44\x24\x09\x8b\x04\x24\x8b\x4c\x24\x04\x8b\x54\x24\x08",
        [0x0100_0001, 0x0001_0001, 1, 2],
    ),
    // mov $0x2,%eax; mov $0x1,%ebx; cmp %ebx,%eax; setb 0(%esp); setae 1(%esp); sete 2(%esp); setne 3(%esp); setbe 4(%esp); seta 5(%esp); setl 6(%esp); setge 7(%esp); setle 8(%esp); setg 9(%esp); mov (%esp),%eax; mov 4(%esp),%ecx; mov 8(%esp),%edx
    (
        b"\xb8\x02\x00\x00\x00\xbb\x01\x00\x00\x00\x39\xd8\x0f\x92\x04\x24\x0f\x93\x44\x24\x01\x0f\x94\x44\x24\x02\x0f\x95\x44\x24\x03\x0f\x96\x44\x24\x04\x0f\x97\x44\x24\x05\x0f\x9c\x44\x24\x06\x0f\x9d\x44\x24\x07\x0f\x9e\x44\x24\x08\x0f\x9f\x44\x24\x09\x8b\x04\x24\x8b\x4c\x24\x04\x8b\x54\x24\x08",
        [0x0100_0100, 0x0100_0100, 256, 1],
    ),
    // mov $0x3,%eax; mov $0x3,%ebx; cmp %ebx,%eax; setb 0(%esp); setae 1(%esp); sete 2(%esp); setne 3(%esp); setbe 4(%esp); seta 5(%esp); setl 6(%esp); setge 7(%esp); setle 8(%esp); setg 9(%esp); mov (%esp),%eax; mov 4(%esp),%ecx; mov 8(%esp),%edx
    (
        b"\xb8\x03\x00\x00\x00\xbb\x03\x00\x00\x00\x39\xd8\x0f\x92\x04\x24\x0f\x93\x44\x24\x01\x0f\x94\x44\x24\x02\x0f\x95\x44\x24\x03\x0f\x96\x44\x24\x04\x0f\x97\x44\x24\x05\x0f\x9c\x44\x24\x06\x0f\x9d\x44\x24\x07\x0f\x9e\x44\x24\x08\x0f\x9f\x44\x24\x09\x8b\x04\x24\x8b\x4c\x24\x04\x8b\x54\x24\x08",
        [0x0001_0100, 0x0100_0001, 1, 3],
    ),
    // mov $0x80000000,%eax; mov $0x1,%ebx; cmp %ebx,%eax; setb 0(%esp); setae 1(%esp); sete 2(%esp); setne 3(%esp); setbe 4(%esp); seta 5(%esp); setl 6(%esp); setge 7(%esp); setle 8(%esp); setg 9(%esp); mov (%esp),%eax; mov 4(%esp),%ecx; mov 8(%esp),%edx
    (
        b"\xb8\x00\x00\x00\x80\xbb\x01\x00\x00\x00\x39\xd8\x0f\x92\x04\x24\x0f\x93\x44\x24\x01\x0f\x94\x44\x24\x02\x0f\x95\x44\x24\x03\x0f\x96\x44\x24\x04\x0f\x97\x44\x24\x05\x0f\x9c\x44\x24\x06\x0f\x9d\x44\x24\x07\x0f\x9e\x44\x24\x08\x0f\x9f\x44\x24\x09\x8b\x04\x24\x8b\x4c\x24\x04\x8b\x54\x24\x08",
        [0x0100_0100, 0x0001_0100, 1, 1],
    ),
    // mov $0x1,%eax; mov $0x80000000,%ebx; cmp %ebx,%eax; setb 0(%esp); setae 1(%esp); sete 2(%esp); setne 3(%esp); setbe 4(%esp); seta 5(%esp); setl 6(%esp); setge 7(%esp); setle 8(%esp); setg 9(%esp); mov (%esp),%eax; mov 4(%esp),%ecx; mov 8(%esp),%edx
    (
        b"\xb8\x01\x00\x00\x00\xbb\x00\x00\x00\x80\x39\xd8\x0f\x92\x04\x24\x0f\x93\x44\x24\x01\x0f\x94\x44\x24\x02\x0f\x95\x44\x24\x03\x0f\x96\x44\x24\x04\x0f\x97\x44\x24\x05\x0f\x9c\x44\x24\x06\x0f\x9d\x44\x24\x07\x0f\x9e\x44\x24\x08\x0f\x9f\x44\x24\x09\x8b\x04\x24\x8b\x4c\x24\x04\x8b\x54\x24\x08",
        [0x0100_0001, 0x0100_0001, 256, 0x8000_0000],
    ),
    // mov $0xffffffff,%eax; mov $0x0,%ebx; cmp %ebx,%eax; setb 0(%esp); setae 1(%esp); sete 2(%esp); setne 3(%esp); setbe 4(%esp); seta 5(%esp); setl 6(%esp); setge 7(%esp); setle 8(%esp); setg 9(%esp); mov (%esp),%eax; mov 4(%esp),%ecx; mov 8(%esp),%edx
    (
        b"\xb8\xff\xff\xff\xff\xbb\x00\x00\x00\x00\x39\xd8\x0f\x92\x04\x24\x0f\x93\x44\x24\x01\x0f\x94\x44\x24\x02\x0f\x95\x44\x24\x03\x0f\x96\x44\x24\x04\x0f\x97\x44\x24\x05\x0f\x9c\x44\x24\x06\x0f\x9d\x44\x24\x07\x0f\x9e\x44\x24\x08\x0f\x9f\x44\x24\x09\x8b\x04\x24\x8b\x4c\x24\x04\x8b\x54\x24\x08",
        [0x0100_0100, 0x0001_0100, 1, 0],
    ),
    // mov $0x0,%eax; mov $0x80000000,%ebx; cmp %ebx,%eax; setb 0(%esp); setae 1(%esp); sete 2(%esp); setne 3(%esp); setbe 4(%esp); seta 5(%esp); setl 6(%esp); setge 7(%esp); setle 8(%esp); setg 9(%esp); mov (%esp),%eax; mov 4(%esp),%ecx; mov 8(%esp),%edx
    (
        b"\xb8\x00\x00\x00\x00\xbb\x00\x00\x00\x80\x39\xd8\x0f\x92\x04\x24\x0f\x93\x44\x24\x01\x0f\x94\x44\x24\x02\x0f\x95\x44\x24\x03\x0f\x96\x44\x24\x04\x0f\x97\x44\x24\x05\x0f\x9c\x44\x24\x06\x0f\x9d\x44\x24\x07\x0f\x9e\x44\x24\x08\x0f\x9f\x44\x24\x09\x8b\x04\x24\x8b\x4c\x24\x04\x8b\x54\x24\x08",
        [0x0100_0001, 0x0100_0001, 256, 0x8000_0000],
    ),
];
