// A compiled program, and the text of a graph of it that breaks no rule.

// A compiled function with a stack protector, a loop, two calls and a switch, and the functions that it calls.
pub(crate) const COMPILED_CODE: &[u8] =
    b"\xf3\x0f\x1e\xfa\x53\x48\x83\xec\x10\x64\x48\x8b\x04\x25\x28\x00\x00\x00\x48\x89\x44\x24\x08\x31\
\xdb\xe8\x35\x00\x00\x00\xff\xc3\x83\xfb\x03\x75\xf4\x83\xf8\x02\x77\x0d\x89\xc0\xff\x24\xc5\xd8\
\x00\x40\x00\x31\xc0\xff\xc0\x48\x8b\x54\x24\x08\x64\x48\x2b\x14\x25\x28\x00\x00\x00\x75\x06\x48\
\x83\xc4\x10\x5b\xc3\xe8\x07\x00\x00\x00\xf4\xb8\x02\x00\x00\x00\xc3\xf4\xcc\xcc\xcc\xcc\xcc\xcc\
\xab\x00\x40\x00\x00\x00\x00\x00\xad\x00\x40\x00\x00\x00\x00\x00\xaf\x00\x40\x00\x00\x00\x00\x00";

pub(crate) const COMPILED: &str = "foxdec graph 1
f 400078 65536 4096
s 400078 step
v 0
c [rsp0;8]=ra
> 40007c:0
s 40007c step
v 0
c [rsp0;8]=ra
> 40007d:0
s 40007d step
v 0
r rsp=rsp0-8
c [rsp0;8]=ra
c [rsp0-8;8]=rbx0
> 400081:0
s 400081 step
v 0
r rsp=rsp0-24
z 64 rsp0-8 16
c [rsp0;8]=ra
c [rsp0-8;8]=rbx0
> 40008a:0
s 40008a step
v 0
r rax=v400081 rsp=rsp0-24
z 64 rsp0-8 16
c [rsp0;8]=ra
c [rsp0-8;8]=rbx0
> 40008f:0
s 40008f step
v 0
r rax=v400081 rsp=rsp0-24
z 64 rsp0-8 16
c [rsp0;8]=ra
c [rsp0-16;8]=v400081
c [rsp0-8;8]=rbx0
> 400091:0
s 400091 call 4000cb
k [rsp0;8]
k [rsp0-8;8]
v 0
r rax=? rcx=? rdx=? rbx=? rsp=rsp0-24 rsi=? rdi=? r8=? r9=? r10=? r11=?
c [rsp0;8]=ra
c [rsp0-8;8]=rbx0
> 400096:0
s 400096 step
v 0
r rax=v400091 rcx=? rdx=? rbx=? rsp=rsp0-24 rsi=? rdi=? r8=? r9=? r10=? r11=?
c [rsp0;8]=ra
c [rsp0-32;8]
c [rsp0-8;8]=rbx0
> 400098:0
s 400098 step
v 0
r rax=v400091 rcx=? rdx=? rbx=v400096 rsp=rsp0-24 rsi=? rdi=? r8=? r9=? r10=? r11=?
c [rsp0;8]=ra
c [rsp0-32;8]
c [rsp0-8;8]=rbx0
> 40009b:0
s 40009b step
v 0
r rax=v400091 rcx=? rdx=? rbx=v400096 rsp=rsp0-24 rsi=? rdi=? r8=? r9=? r10=? r11=?
z 32 zx32(v400096) 3
c [rsp0;8]=ra
c [rsp0-32;8]
c [rsp0-8;8]=rbx0
> 400091:0 40009d:0
s 40009d step
v 0
r rax=v400091 rcx=? rdx=? rbx=v400096 rsp=rsp0-24 rsi=? rdi=? r8=? r9=? r10=? r11=?
z 32 zx32(v400096) 3
b zx32(v400096) 3..3
c [rsp0;8]=ra
c [rsp0-32;8]
c [rsp0-8;8]=rbx0
> 4000a0:0
s 4000a0 step
v 0
r rax=v400091 rcx=? rdx=? rbx=v400096 rsp=rsp0-24 rsi=? rdi=? r8=? r9=? r10=? r11=?
z 32 zx32(v400091) 2
b zx32(v400096) 3..3
c [rsp0;8]=ra
c [rsp0-32;8]
c [rsp0-8;8]=rbx0
> 4000af:0 4000a2:0
s 4000a2 step
v 0
r rax=v400091 rcx=? rdx=? rbx=v400096 rsp=rsp0-24 rsi=? rdi=? r8=? r9=? r10=? r11=?
z 32 zx32(v400091) 2
b zx32(v400091) 0..2
b zx32(v400096) 3..3
c [rsp0;8]=ra
c [rsp0-32;8]
c [rsp0-8;8]=rbx0
> 4000a4:0
s 4000a4 step
v 0
r rax=zx32(v400091) rcx=? rdx=? rbx=v400096 rsp=rsp0-24 rsi=? rdi=? r8=? r9=? r10=? r11=?
z 32 zx32(v400091) 2
b zx32(v400091) 0..2
b zx32(v400096) 3..3
c [rsp0;8]=ra
c [rsp0-32;8]
c [rsp0-8;8]=rbx0
> 4000ab:0 4000ad:0 4000af:0
s 4000ab step
v 0
r rax=zx32(v400091) rcx=? rdx=? rbx=v400096 rsp=rsp0-24 rsi=? rdi=? r8=? r9=? r10=? r11=?
z 32 zx32(v400091) 2
b v4000a4 {0x4000ab,0x4000ad,0x4000af}
b zx32(v400091) 0..2
b zx32(v400096) 3..3
c [rsp0;8]=ra
c [rsp0-32;8]
c [rsp0-8;8]=rbx0
> 4000ad:0
s 4000ad step
v 0
r rax=? rcx=? rdx=? rbx=v400096 rsp=rsp0-24 rsi=? rdi=? r8=? r9=? r10=? r11=?
b v4000a4 {0x4000ab,0x4000ad,0x4000af}
b zx32(v400091) 0..2
b zx32(v400096) 3..3
c [rsp0;8]=ra
c [rsp0-32;8]
c [rsp0-8;8]=rbx0
> 4000af:0
s 4000af step
v 0
r rax=? rcx=? rdx=? rbx=v400096 rsp=rsp0-24 rsi=? rdi=? r8=? r9=? r10=? r11=?
b zx32(v400096) 3..3
c [rsp0;8]=ra
c [rsp0-32;8]
c [rsp0-8;8]=rbx0
> 4000b4:0
s 4000b4 step
v 0
r rax=? rcx=? rdx=v4000af rbx=v400096 rsp=rsp0-24 rsi=? rdi=? r8=? r9=? r10=? r11=?
b zx32(v400096) 3..3
c [rsp0;8]=ra
c [rsp0-32;8]
c [rsp0-16;8]=v4000af
c [rsp0-8;8]=rbx0
> 4000bd:0
s 4000bd step
v 0
r rax=? rcx=? rdx=v4000b4 rbx=v400096 rsp=rsp0-24 rsi=? rdi=? r8=? r9=? r10=? r11=?
b zx32(v400096) 3..3
c [rsp0;8]=ra
c [rsp0-32;8]
c [rsp0-16;8]=v4000af
c [rsp0-8;8]=rbx0
> 4000c5:0 4000bf:0
s 4000bf step
v 0
r rax=? rcx=? rdx=v4000b4 rbx=v400096 rsp=rsp0-24 rsi=? rdi=? r8=? r9=? r10=? r11=?
b zx32(v400096) 3..3
c [rsp0;8]=ra
c [rsp0-32;8]
c [rsp0-16;8]=v4000af
c [rsp0-8;8]=rbx0
> 4000c3:0
s 4000c3 step
v 0
r rax=? rcx=? rdx=v4000b4 rbx=v400096 rsp=rsp0-8 rsi=? rdi=? r8=? r9=? r10=? r11=?
b zx32(v400096) 3..3
c [rsp0;8]=ra
c [rsp0-32;8]
c [rsp0-16;8]=v4000af
c [rsp0-8;8]=rbx0
> 4000c4:0
s 4000c4 ret
v 0
r rax=? rcx=? rdx=v4000b4 rsi=? rdi=? r8=? r9=? r10=? r11=?
b zx32(v400096) 3..3
c [rsp0;8]=ra
c [rsp0-32;8]
c [rsp0-16;8]=v4000af
c [rsp0-8;8]=rbx0
s 4000c5 call 4000d1
k [rsp0;8]
k [rsp0-8;8]
v 0
r rax=? rcx=? rdx=v4000b4 rbx=v400096 rsp=rsp0-24 rsi=? rdi=? r8=? r9=? r10=? r11=?
b zx32(v400096) 3..3
c [rsp0;8]=ra
c [rsp0-32;8]
c [rsp0-16;8]=v4000af
c [rsp0-8;8]=rbx0
> 4000ca:0
s 4000ca end stop
v 0
r rax=v4000c5 rcx=? rdx=? rbx=v400096 rsp=rsp0-24 rsi=? rdi=? r8=? r9=? r10=? r11=?
b zx32(v400096) 3..3
c [rsp0;8]=ra
c [rsp0-32;8]
c [rsp0-16;8]
c [rsp0-8;8]=rbx0
f 4000cb 65536 4096
s 4000cb step
v 0
c [rsp0;8]=ra
> 4000d0:0
s 4000d0 ret
v 0
r rax=2
c [rsp0;8]=ra
f 4000d1 65536 4096
s 4000d1 end stop
v 0
c [rsp0;8]=ra
end
";
