// Code at 0x400078 of small programs, and the text of a graph of each that breaks no rule.

// A lone return.
pub(crate) const RETURN_CODE: &[u8] = b"\xc3";

pub(crate) const RETURN: &str = "foxdec graph 1
f 400078 65536 4096
s 400078 ret
v 0
c [rsp0;8]=ra
end
";

// `movabs rax, -1` and a return.
pub(crate) const MOVE_CODE: &[u8] = b"\x48\xb8\xff\xff\xff\xff\xff\xff\xff\xff\xc3";

pub(crate) const MOVE: &str = "foxdec graph 1
f 400078 65536 4096
s 400078 step
v 0
c [rsp0;8]=ra
> 400082:0
s 400082 ret
v 0
r rax=-1
c [rsp0;8]=ra
end
";

// rbx is pushed and popped.
pub(crate) const PUSH_AND_POP_CODE: &[u8] = b"\x53\x5b\xc3";

pub(crate) const PUSH_AND_POP: &str = "foxdec graph 1
f 400078 65536 4096
s 400078 step
v 0
c [rsp0;8]=ra
> 400079:0
s 400079 step
v 0
r rsp=rsp0-8
c [rsp0;8]=ra
c [rsp0-8;8]=rbx0
> 40007a:0
s 40007a ret
v 0
c [rsp0;8]=ra
c [rsp0-8;8]=rbx0
end
";

// rbx is pushed and left on the stack, so the return is no verified one.
pub(crate) const PUSH_CODE: &[u8] = b"\x53\xc3";

pub(crate) const PUSH: &str = "foxdec graph 1
f 400078 65536 4096
s 400078 step
v 0
c [rsp0;8]=ra
> 400079:0
s 400079 end badreturn
v 0
r rsp=rsp0-8
c [rsp0;8]=ra
c [rsp0-8;8]=rbx0
end
";

// A store of rsi at rdi, which is taken as apart from the return address.
pub(crate) const STORE_CODE: &[u8] = b"\x48\x89\x37\xc3";

pub(crate) const STORE: &str = "foxdec graph 1
f 400078 65536 4096
s 400078 step
p [rdi0;8] [rsp0;8]
v 0
c [rsp0;8]=ra
> 40007b:0
s 40007b ret
v 0
c [rsp0;8]=ra
c [rdi0;8]=rsi0
end
";

// Eight bytes are stored below the stack pointer, then four of them anew.
pub(crate) const STORE_IN_A_CELL_CODE: &[u8] = b"\x48\x89\x7c\x24\xf8\x89\x74\x24\xf8\xc3";

pub(crate) const STORE_IN_A_CELL: &str = "foxdec graph 1
f 400078 65536 4096
s 400078 step
v 0
c [rsp0;8]=ra
> 40007d:0
s 40007d step
v 0
c [rsp0;8]=ra
c [rsp0-8;8]=rdi0
> 400081:0
s 400081 ret
v 0
c [rsp0;8]=ra
c [rsp0-8;8]
c .[rsp0-8;4]=zx32(rsi0)
end
";

// `xchg byte [rdi], al`.
pub(crate) const EXCHANGE_A_BYTE_CODE: &[u8] = b"\x86\x07\xc3";

pub(crate) const EXCHANGE_A_BYTE: &str = "foxdec graph 1
f 400078 65536 4096
s 400078 step
p [rdi0;1] [rsp0;8]
v 0
c [rsp0;8]=ra
> 40007a:0
s 40007a ret
v 0
r rax=v400078
c [rsp0;8]=ra
c [rdi0;1]=zx8(rax0)
end
";

// A jump to the second byte of its own instruction.
pub(crate) const INTO_AN_INSTRUCTION_CODE: &[u8] = b"\xeb\xff\xc0\xc3";

pub(crate) const INTO_AN_INSTRUCTION: &str = "foxdec graph 1
f 400078 65536 4096
s 400078 step
v 0
c [rsp0;8]=ra
> 400079:0
s 400079 step
v 0
c [rsp0;8]=ra
> 40007b:0
s 40007b ret
v 0
r rax=zx32(zx32(rax0)+1)
c [rsp0;8]=ra
end
";

// A jump to itself: two vertices at the entry.
pub(crate) const TO_ITSELF_CODE: &[u8] = b"\xeb\xfe";

pub(crate) const TO_ITSELF: &str = "foxdec graph 1
f 400078 65536 4096
s 400078 step
v 0
c [rsp0;8]=ra
> 400078:1
v 1
c [rsp0;8]=ra
> 400078:1
end
";

// An instruction that is not of the subset.
pub(crate) const LOCK_CODE: &[u8] = b"\xf0\x01\x07";

pub(crate) const LOCK: &str = "foxdec graph 1
f 400078 65536 4096
s 400078 end unsupported
v 0
c [rsp0;8]=ra
end
";

// A jump to an address that is taken to lie outside.
pub(crate) const EXTERN_JUMP_CODE: &[u8] = b"\xeb\x00\xf4";

pub(crate) const EXTERN_JUMP: &str = "foxdec graph 1
f 400078 65536 4096
s 400078 step
v 0
c [rsp0;8]=ra
> 40007a:0
s 40007a end extern
v 0
c [rsp0;8]=ra
end
";

// A shift by cl.
pub(crate) const SHIFT_BY_CL_CODE: &[u8] = b"\x31\xc9\xd3\xe0\xc3";

pub(crate) const SHIFT_BY_CL: &str = "foxdec graph 1
f 400078 65536 4096
s 400078 step
v 0
c [rsp0;8]=ra
> 40007a:0
s 40007a step
v 0
r rcx=0
z 32 0 0
c [rsp0;8]=ra
> 40007c:0
s 40007c ret
v 0
r rax=v40007a rcx=0
c [rsp0;8]=ra
end
";

// rbx is saved, counts from 0 to 10 and comes back.
pub(crate) const LOOP_CODE: &[u8] = b"\x53\x31\xdb\xff\xc3\x83\xfb\x0a\x75\xf9\x5b\xc3";

pub(crate) const LOOP: &str = "foxdec graph 1
f 400078 65536 4096
s 400078 step
v 0
c [rsp0;8]=ra
> 400079:0
s 400079 step
v 0
r rsp=rsp0-8
c [rsp0;8]=ra
c [rsp0-8;8]=rbx0
> 40007b:0
s 40007b step
v 0
r rbx=? rsp=rsp0-8
c [rsp0;8]=ra
c [rsp0-8;8]=rbx0
> 40007d:0
s 40007d step
v 0
r rbx=v40007b rsp=rsp0-8
c [rsp0;8]=ra
c [rsp0-8;8]=rbx0
> 400080:0
s 400080 step
v 0
r rbx=v40007b rsp=rsp0-8
z 32 zx32(v40007b) 10
c [rsp0;8]=ra
c [rsp0-8;8]=rbx0
> 40007b:0 400082:0
s 400082 step
v 0
r rbx=v40007b rsp=rsp0-8
z 32 zx32(v40007b) 10
b zx32(v40007b) 10..10
c [rsp0;8]=ra
c [rsp0-8;8]=rbx0
> 400083:0
s 400083 ret
v 0
z 32 zx32(v40007b) 10
b zx32(v40007b) 10..10
c [rsp0;8]=ra
c [rsp0-8;8]=rbx0
end
";

// A jump by a table of four addresses behind a comparison of edi with 3.
pub(crate) const SWITCH_CODE: &[u8] =
    b"\x83\xff\x03\x77\x0b\x89\xf8\xff\x24\xc5\x90\x00\x40\x00\xc3\xc3\xc3\xcc\xcc\xcc\xcc\xcc\xcc\xcc\
\x86\x00\x40\x00\x00\x00\x00\x00\x87\x00\x40\x00\x00\x00\x00\x00\x86\x00\x40\x00\x00\x00\x00\x00\
\x88\x00\x40\x00\x00\x00\x00\x00";

pub(crate) const SWITCH: &str = "foxdec graph 1
f 400078 65536 4096
s 400078 step
v 0
c [rsp0;8]=ra
> 40007b:0
s 40007b step
v 0
z 32 zx32(rdi0) 3
c [rsp0;8]=ra
> 400088:0 40007d:0
s 40007d step
v 0
z 32 zx32(rdi0) 3
b zx32(rdi0) 0..3
c [rsp0;8]=ra
> 40007f:0
s 40007f step
v 0
r rax=zx32(rdi0)
z 32 zx32(rdi0) 3
b zx32(rdi0) 0..3
c [rsp0;8]=ra
> 400086:0 400087:0 400088:0
s 400086 ret
v 0
r rax=zx32(rdi0)
z 32 zx32(rdi0) 3
b v40007f {0x400086,0x400087,0x400088}
b zx32(rdi0) 0..3
c [rsp0;8]=ra
s 400087 ret
v 0
r rax=zx32(rdi0)
z 32 zx32(rdi0) 3
b v40007f {0x400086,0x400087,0x400088}
b zx32(rdi0) 0..3
c [rsp0;8]=ra
s 400088 ret
v 0
r rax=?
z 32 zx32(rdi0) 3
c [rsp0;8]=ra
end
";

// The same where a target jumps back to the comparison.
pub(crate) const SWITCH_IN_A_LOOP_CODE: &[u8] =
    b"\x83\xff\x03\x77\x0b\x89\xf8\xff\x24\xc5\x90\x00\x40\x00\xeb\xf0\xc3\xcc\xcc\xcc\xcc\xcc\xcc\xcc\
\x86\x00\x40\x00\x00\x00\x00\x00\x86\x00\x40\x00\x00\x00\x00\x00\x86\x00\x40\x00\x00\x00\x00\x00\
\x88\x00\x40\x00\x00\x00\x00\x00";

pub(crate) const SWITCH_IN_A_LOOP: &str = "foxdec graph 1
f 400078 65536 4096
s 400078 step
v 0
c [rsp0;8]=ra
> 40007b:0
v 1
r rax=zx32(rdi0)
z 32 zx32(rdi0) 3
b v40007f {0x400086,0x400088}
b zx32(rdi0) 0..3
c [rsp0;8]=ra
> 40007b:0
s 40007b step
v 0
r rax=?
z 32 zx32(rdi0) 3
c [rsp0;8]=ra
> 400088:0 40007d:0
s 40007d step
v 0
r rax=?
z 32 zx32(rdi0) 3
b zx32(rdi0) 0..3
c [rsp0;8]=ra
> 40007f:0
s 40007f step
v 0
r rax=zx32(rdi0)
z 32 zx32(rdi0) 3
b zx32(rdi0) 0..3
c [rsp0;8]=ra
> 400086:0 400088:0
s 400086 step
v 0
r rax=zx32(rdi0)
z 32 zx32(rdi0) 3
b v40007f {0x400086,0x400088}
b zx32(rdi0) 0..3
c [rsp0;8]=ra
> 400078:1
s 400088 ret
v 0
r rax=?
z 32 zx32(rdi0) 3
c [rsp0;8]=ra
end
";

// A jump by a table of one-byte cases in a loop.
pub(crate) const DISPATCH_LOOP_CODE: &[u8] =
    b"\x0f\xb6\x07\x83\xf8\x03\x77\x09\xff\x24\xc5\x90\x00\x40\x00\xeb\xef\xc3\xcc\xcc\xcc\xcc\xcc\xcc\
\x87\x00\x40\x00\x00\x00\x00\x00\x87\x00\x40\x00\x00\x00\x00\x00\x87\x00\x40\x00\x00\x00\x00\x00\
\x89\x00\x40\x00\x00\x00\x00\x00";

pub(crate) const DISPATCH_LOOP: &str = "foxdec graph 1
f 400078 65536 4096
s 400078 step
v 0
c [rsp0;8]=ra
> 40007b:0
v 1
r rax=zx8(v400078)
z 32 zx8(v400078) 3
b v400080 {0x400087,0x400089}
b zx8(v400078) 0..3
c [rsp0;8]=ra
> 40007b:0
s 40007b step
v 0
r rax=zx8(v400078)
c [rsp0;8]=ra
> 40007e:0
s 40007e step
v 0
r rax=zx8(v400078)
z 32 zx8(v400078) 3
c [rsp0;8]=ra
> 400089:0 400080:0
s 400080 step
v 0
r rax=zx8(v400078)
z 32 zx8(v400078) 3
b zx8(v400078) 0..3
c [rsp0;8]=ra
> 400087:0 400089:0
s 400087 step
v 0
r rax=zx8(v400078)
z 32 zx8(v400078) 3
b v400080 {0x400087,0x400089}
b zx8(v400078) 0..3
c [rsp0;8]=ra
> 400078:1
s 400089 ret
v 0
r rax=zx8(v400078)
z 32 zx8(v400078) 3
c [rsp0;8]=ra
end
";

// A jump by a table of differences, which are read with their sign.
pub(crate) const RELATIVE_TABLE_CODE: &[u8] =
    b"\x83\xff\x02\x77\x15\x89\xff\x48\x8d\x15\x0e\x00\x00\x00\x48\x63\x04\xba\x48\x01\xd0\x3e\xff\xe0\
\xc3\xc3\xc3\xcc\xfc\xff\xff\xff\xfd\xff\xff\xff\xfd\xff\xff\xff";

pub(crate) const RELATIVE_TABLE: &str = "foxdec graph 1
f 400078 65536 4096
s 400078 step
v 0
c [rsp0;8]=ra
> 40007b:0
s 40007b step
v 0
z 32 zx32(rdi0) 2
c [rsp0;8]=ra
> 400092:0 40007d:0
s 40007d step
v 0
z 32 zx32(rdi0) 2
b zx32(rdi0) 0..2
c [rsp0;8]=ra
> 40007f:0
s 40007f step
v 0
r rdi=zx32(rdi0)
z 32 zx32(rdi0) 2
b zx32(rdi0) 0..2
c [rsp0;8]=ra
> 400086:0
s 400086 step
v 0
r rdx=0x400094 rdi=zx32(rdi0)
z 32 zx32(rdi0) 2
b zx32(rdi0) 0..2
c [rsp0;8]=ra
> 40008a:0
s 40008a step
v 0
r rax=v400086 rdx=0x400094 rdi=zx32(rdi0)
z 32 zx32(rdi0) 2
b v400086 {0xfffffffffffffffc,0xfffffffffffffffd}
b zx32(rdi0) 0..2
c [rsp0;8]=ra
> 40008d:0
s 40008d step
v 0
r rax=v400086+0x400094 rdx=0x400094 rdi=zx32(rdi0)
b v400086 {0xfffffffffffffffc,0xfffffffffffffffd}
b zx32(rdi0) 0..2
c [rsp0;8]=ra
> 400090:0 400091:0
s 400090 ret
v 0
r rax=v400086+0x400094 rdx=0x400094 rdi=zx32(rdi0)
b v400086 {0xfffffffffffffffc,0xfffffffffffffffd}
b zx32(rdi0) 0..2
c [rsp0;8]=ra
s 400091 ret
v 0
r rax=v400086+0x400094 rdx=0x400094 rdi=zx32(rdi0)
b v400086 {0xfffffffffffffffc,0xfffffffffffffffd}
b zx32(rdi0) 0..2
c [rsp0;8]=ra
s 400092 ret
v 0
z 32 zx32(rdi0) 2
b zx32(rdi0) 3..0xffffffff
c [rsp0;8]=ra
end
";

// An indirect jump whose target leads back to it.
pub(crate) const BACK_TO_ITS_TABLE_CODE: &[u8] = b"\xb8\x7f\x00\x40\x00\xff\xe0\x31\xc0\xeb\xfa";

pub(crate) const BACK_TO_ITS_TABLE: &str = "foxdec graph 1
f 400078 65536 4096
s 400078 step
v 0
c [rsp0;8]=ra
> 40007d:0
s 40007d end unresolved
v 0
r rax=0x40007f
c [rsp0;8]=ra
end
";

// A function that calls itself.
pub(crate) const RECURSION_CODE: &[u8] = b"\xe8\xfb\xff\xff\xff\xc3";

pub(crate) const RECURSION: &str = "foxdec graph 1
f 400078 65536 4096
s 400078 call 400078
k [rsp0;8]
v 0
c [rsp0;8]=ra
> 40007d:0
s 40007d ret
v 0
r rax=v400078 rcx=? rdx=? rsi=? rdi=? r8=? r9=? r10=? r11=?
c [rsp0;8]=ra
c [rsp0-8;8]
end
";

// A system call.
pub(crate) const SYSTEM_CALL_CODE: &[u8] = b"\x0f\x05\xc3";

pub(crate) const SYSTEM_CALL: &str = "foxdec graph 1
f 400078 65536 4096
s 400078 outside
k [rsp0;8]
v 0
c [rsp0;8]=ra
> 40007a:0
s 40007a ret
v 0
r rax=v400078 rcx=? r11=?
c [rsp0;8]=ra
end
";

// A call of what is not looked into.
pub(crate) const CALL_OUTSIDE_CODE: &[u8] = b"\xe8\x01\x00\x00\x00\xc3\xf4";

pub(crate) const CALL_OUTSIDE: &str = "foxdec graph 1
f 400078 65536 4096
s 400078 outside
k [rsp0;8]
v 0
c [rsp0;8]=ra
> 40007d:0
s 40007d ret
v 0
r rax=v400078 rcx=? rdx=? rsi=? rdi=? r8=? r9=? r10=? r11=?
c [rsp0;8]=ra
c [rsp0-8;8]
end
";

// A call of a function that saves rbx, and that function.
pub(crate) const CALL_OF_A_PUSH_CODE: &[u8] = b"\xe8\x01\x00\x00\x00\xc3\x53\x5b\xc3";

pub(crate) const CALL_OF_A_PUSH: &str = "foxdec graph 1
f 400078 65536 4096
s 400078 call 40007e
k [rsp0;8]
v 0
c [rsp0;8]=ra
> 40007d:0
s 40007d ret
v 0
r rax=v400078 rcx=? rdx=? rsi=? rdi=? r8=? r9=? r10=? r11=?
c [rsp0;8]=ra
c [rsp0-8;8]
f 40007e 65536 4096
s 40007e step
v 0
c [rsp0;8]=ra
> 40007f:0
s 40007f step
v 0
r rsp=rsp0-8
c [rsp0;8]=ra
c [rsp0-8;8]=rbx0
> 400080:0
s 400080 ret
v 0
c [rsp0;8]=ra
c [rsp0-8;8]=rbx0
end
";

// Two stores, of which it is told apart whether they are to one place.
pub(crate) const FORK_CODE: &[u8] = b"\x48\x89\x37\x48\x89\x0a\xc3";

pub(crate) const FORK: &str = "foxdec graph 1
f 400078 65536 4096
s 400078 step
p [rdi0;8] [rsp0;8]
v 0
c [rsp0;8]=ra
> 40007b:0
s 40007b step
p [rdx0;8] [rsp0;8]
g [rdx0;8] [rdi0;8]
v 0
c [rsp0;8]=ra
c [rdi0;8]=rsi0
> 40007e:0 40007e:1 40007e:2
s 40007e ret
v 0
c [rdx0|rdi0;8]=rcx0
c [rsp0;8]=ra
v 1
c [rdx0;8]=rcx0
c [rsp0;8]=ra
c [rdi0;8]=rsi0
v 2
c [rdx0;8]=rcx0
c [rsp0;8]=ra
end
";
