ghost use Rattle.std.specs.Prelude.{◌≡◌, ◌≤◌, ◌+◌, ◌/◌, ℕ, Option, if◌then◌else◌, length, drop, find};
ghost use Rattle.x86_spelling.specs.Table.{table};
ghost use Rattle.x86_spelling.specs.Rows.{is_at, wants};
ghost use Rattle.x86_decode.specs.Reading.{matches, row_at};

use crate::fields::rex_bits;
use bits_core::Width;
use x86_instr::Op;
use x86_spelling::{Form, ImmSize, PrefixRule, Row, Size};

const BYTE: Row = Row {
    escaped: false,
    opcode: 0,
    span: 1,
    digit: None,
    rex_b: None,
    rex_w: None,
    op: Op::Nop,
    form: Form::Nothing,
    size: Size::Byte,
    source: None,
    imm: ImmSize::Absent,
    prefixes: PrefixRule::Segment,
};

const V: Row = Row {
    size: Size::V,
    prefixes: PrefixRule::SizeSegment,
    ..BYTE
};

const Y: Row = Row {
    size: Size::Y,
    ..BYTE
};

const QUAD: Row = Row {
    size: Size::Quad,
    ..BYTE
};

macro_rules! row {
    ($base:ident $opcode:literal $op:ident $form:ident $imm:ident $(, $field:ident : $value:expr)*) => {
        Row {
            opcode: $opcode,
            op: Op::$op,
            form: Form::$form,
            imm: ImmSize::$imm,
            $($field: $value,)*
            ..$base
        }
    };
}

// The opcode map, in the order of the opcodes.
static ROWS: [Row; 170] = [
    row!(BYTE 0x00 Add RmReg Absent),
    row!(V 0x01 Add RmReg Absent),
    row!(BYTE 0x02 Add RegRm Absent),
    row!(V 0x03 Add RegRm Absent),
    row!(BYTE 0x04 Add AccImm Byte),
    row!(V 0x05 Add AccImm Z),
    row!(BYTE 0x08 Or RmReg Absent),
    row!(V 0x09 Or RmReg Absent),
    row!(BYTE 0x0a Or RegRm Absent),
    row!(V 0x0b Or RegRm Absent),
    row!(BYTE 0x0c Or AccImm Byte),
    row!(V 0x0d Or AccImm Z),
    row!(BYTE 0x10 Adc RmReg Absent),
    row!(V 0x11 Adc RmReg Absent),
    row!(BYTE 0x12 Adc RegRm Absent),
    row!(V 0x13 Adc RegRm Absent),
    row!(BYTE 0x14 Adc AccImm Byte),
    row!(V 0x15 Adc AccImm Z),
    row!(BYTE 0x18 Sbb RmReg Absent),
    row!(V 0x19 Sbb RmReg Absent),
    row!(BYTE 0x1a Sbb RegRm Absent),
    row!(V 0x1b Sbb RegRm Absent),
    row!(BYTE 0x1c Sbb AccImm Byte),
    row!(V 0x1d Sbb AccImm Z),
    row!(BYTE 0x20 And RmReg Absent),
    row!(V 0x21 And RmReg Absent),
    row!(BYTE 0x22 And RegRm Absent),
    row!(V 0x23 And RegRm Absent),
    row!(BYTE 0x24 And AccImm Byte),
    row!(V 0x25 And AccImm Z),
    row!(BYTE 0x28 Sub RmReg Absent),
    row!(V 0x29 Sub RmReg Absent),
    row!(BYTE 0x2a Sub RegRm Absent),
    row!(V 0x2b Sub RegRm Absent),
    row!(BYTE 0x2c Sub AccImm Byte),
    row!(V 0x2d Sub AccImm Z),
    row!(BYTE 0x30 Xor RmReg Absent),
    row!(V 0x31 Xor RmReg Absent),
    row!(BYTE 0x32 Xor RegRm Absent),
    row!(V 0x33 Xor RegRm Absent),
    row!(BYTE 0x34 Xor AccImm Byte),
    row!(V 0x35 Xor AccImm Z),
    row!(BYTE 0x38 Cmp RmReg Absent),
    row!(V 0x39 Cmp RmReg Absent),
    row!(BYTE 0x3a Cmp RegRm Absent),
    row!(V 0x3b Cmp RegRm Absent),
    row!(BYTE 0x3c Cmp AccImm Byte),
    row!(V 0x3d Cmp AccImm Z),
    row!(QUAD 0x50 Push OpReg Absent, span: 8),
    row!(QUAD 0x58 Pop OpReg Absent, span: 8),
    row!(QUAD 0x63 Movsx RegRm Absent, rex_w: Some(1), source: Some(Width::W32)),
    row!(QUAD 0x68 Push ImmOnly Double),
    row!(V 0x69 Imul3 RegRmImm Z),
    row!(QUAD 0x6a Push ImmOnly Byte),
    row!(V 0x6b Imul3 RegRmImm Byte),
    row!(QUAD 0x70 Jcc Offset Byte, span: 10),
    row!(QUAD 0x7c Jcc Offset Byte, span: 4),
    row!(BYTE 0x80 Add RmImm Byte, digit: Some(0)),
    row!(BYTE 0x80 Or RmImm Byte, digit: Some(1)),
    row!(BYTE 0x80 Adc RmImm Byte, digit: Some(2)),
    row!(BYTE 0x80 Sbb RmImm Byte, digit: Some(3)),
    row!(BYTE 0x80 And RmImm Byte, digit: Some(4)),
    row!(BYTE 0x80 Sub RmImm Byte, digit: Some(5)),
    row!(BYTE 0x80 Xor RmImm Byte, digit: Some(6)),
    row!(BYTE 0x80 Cmp RmImm Byte, digit: Some(7)),
    row!(V 0x81 Add RmImm Z, digit: Some(0)),
    row!(V 0x81 Or RmImm Z, digit: Some(1)),
    row!(V 0x81 Adc RmImm Z, digit: Some(2)),
    row!(V 0x81 Sbb RmImm Z, digit: Some(3)),
    row!(V 0x81 And RmImm Z, digit: Some(4)),
    row!(V 0x81 Sub RmImm Z, digit: Some(5)),
    row!(V 0x81 Xor RmImm Z, digit: Some(6)),
    row!(V 0x81 Cmp RmImm Z, digit: Some(7)),
    row!(V 0x83 Add RmImm Byte, digit: Some(0)),
    row!(V 0x83 Or RmImm Byte, digit: Some(1)),
    row!(V 0x83 Adc RmImm Byte, digit: Some(2)),
    row!(V 0x83 Sbb RmImm Byte, digit: Some(3)),
    row!(V 0x83 And RmImm Byte, digit: Some(4)),
    row!(V 0x83 Sub RmImm Byte, digit: Some(5)),
    row!(V 0x83 Xor RmImm Byte, digit: Some(6)),
    row!(V 0x83 Cmp RmImm Byte, digit: Some(7)),
    row!(BYTE 0x84 Test RmReg Absent),
    row!(V 0x85 Test RmReg Absent),
    row!(BYTE 0x86 Xchg RmReg Absent),
    row!(V 0x87 Xchg RmReg Absent),
    row!(BYTE 0x88 Mov RmReg Absent),
    row!(V 0x89 Mov RmReg Absent),
    row!(BYTE 0x8a Mov RegRm Absent),
    row!(V 0x8b Mov RegRm Absent),
    row!(V 0x8d Lea RegRm Absent, prefixes: PrefixRule::Size),
    row!(QUAD 0x90 Nop Nothing Absent, rex_b: Some(0), prefixes: PrefixRule::Sizes),
    row!(V 0x90 Xchg AccOp Absent, rex_b: Some(1)),
    row!(V 0x91 Xchg AccOp Absent, span: 7),
    row!(V 0x98 Widen Nothing Absent),
    row!(V 0x99 Signs Nothing Absent),
    row!(BYTE 0xa8 Test AccImm Byte),
    row!(V 0xa9 Test AccImm Z),
    row!(BYTE 0xb0 Mov OpImm Byte, span: 8),
    row!(V 0xb8 Mov OpImm V, span: 8),
    row!(BYTE 0xc0 Rol RmCount Count, digit: Some(0)),
    row!(BYTE 0xc0 Ror RmCount Count, digit: Some(1)),
    row!(BYTE 0xc0 Shl RmCount Count, digit: Some(4)),
    row!(BYTE 0xc0 Shr RmCount Count, digit: Some(5)),
    row!(BYTE 0xc0 Sar RmCount Count, digit: Some(7)),
    row!(V 0xc1 Rol RmCount Count, digit: Some(0)),
    row!(V 0xc1 Ror RmCount Count, digit: Some(1)),
    row!(V 0xc1 Shl RmCount Count, digit: Some(4)),
    row!(V 0xc1 Shr RmCount Count, digit: Some(5)),
    row!(V 0xc1 Sar RmCount Count, digit: Some(7)),
    row!(QUAD 0xc3 Ret Nothing Absent, prefixes: PrefixRule::Return),
    row!(BYTE 0xc6 Mov RmImm Byte, digit: Some(0)),
    row!(V 0xc7 Mov RmImm Z, digit: Some(0)),
    row!(QUAD 0xc9 Leave Nothing Absent),
    row!(QUAD 0xcc Int3 Nothing Absent),
    row!(BYTE 0xd0 Rol RmOne Absent, digit: Some(0)),
    row!(BYTE 0xd0 Ror RmOne Absent, digit: Some(1)),
    row!(BYTE 0xd0 Shl RmOne Absent, digit: Some(4)),
    row!(BYTE 0xd0 Shr RmOne Absent, digit: Some(5)),
    row!(BYTE 0xd0 Sar RmOne Absent, digit: Some(7)),
    row!(V 0xd1 Rol RmOne Absent, digit: Some(0)),
    row!(V 0xd1 Ror RmOne Absent, digit: Some(1)),
    row!(V 0xd1 Shl RmOne Absent, digit: Some(4)),
    row!(V 0xd1 Shr RmOne Absent, digit: Some(5)),
    row!(V 0xd1 Sar RmOne Absent, digit: Some(7)),
    row!(BYTE 0xd2 Rol RmCl Absent, digit: Some(0)),
    row!(BYTE 0xd2 Ror RmCl Absent, digit: Some(1)),
    row!(BYTE 0xd2 Shl RmCl Absent, digit: Some(4)),
    row!(BYTE 0xd2 Shr RmCl Absent, digit: Some(5)),
    row!(BYTE 0xd2 Sar RmCl Absent, digit: Some(7)),
    row!(V 0xd3 Rol RmCl Absent, digit: Some(0)),
    row!(V 0xd3 Ror RmCl Absent, digit: Some(1)),
    row!(V 0xd3 Shl RmCl Absent, digit: Some(4)),
    row!(V 0xd3 Shr RmCl Absent, digit: Some(5)),
    row!(V 0xd3 Sar RmCl Absent, digit: Some(7)),
    row!(QUAD 0xe8 Call Offset Double, prefixes: PrefixRule::Call),
    row!(QUAD 0xe9 Jmp Offset Double, prefixes: PrefixRule::Branch),
    row!(QUAD 0xeb Jmp Offset Byte),
    row!(QUAD 0xf4 Hlt Nothing Absent),
    row!(BYTE 0xf6 Test RmImm Byte, digit: Some(0)),
    row!(BYTE 0xf6 Not Rm Absent, digit: Some(2)),
    row!(BYTE 0xf6 Neg Rm Absent, digit: Some(3)),
    row!(V 0xf7 Test RmImm Z, digit: Some(0)),
    row!(V 0xf7 Not Rm Absent, digit: Some(2)),
    row!(V 0xf7 Neg Rm Absent, digit: Some(3)),
    row!(V 0xf7 Mul Rm Absent, digit: Some(4)),
    row!(V 0xf7 Imul1 Rm Absent, digit: Some(5)),
    row!(V 0xf7 Div Rm Absent, digit: Some(6)),
    row!(V 0xf7 Idiv Rm Absent, digit: Some(7)),
    row!(BYTE 0xfe Inc Rm Absent, digit: Some(0)),
    row!(BYTE 0xfe Dec Rm Absent, digit: Some(1)),
    row!(V 0xff Inc Rm Absent, digit: Some(0)),
    row!(V 0xff Dec Rm Absent, digit: Some(1)),
    row!(QUAD 0xff Call Rm Absent, digit: Some(2), prefixes: PrefixRule::Branch),
    row!(QUAD 0xff Jmp Rm Absent, digit: Some(4), prefixes: PrefixRule::Branch),
    row!(QUAD 0xff Push Rm Absent, digit: Some(6)),
    row!(QUAD 0x05 Syscall Nothing Absent, escaped: true),
    row!(QUAD 0x0b Ud2 Nothing Absent, escaped: true),
    row!(QUAD 0x1f Nop RmIgnored Absent, escaped: true, digit: Some(0), prefixes: PrefixRule::Sizes),
    row!(V 0x40 Cmov RegRm Absent, escaped: true, span: 10),
    row!(V 0x4c Cmov RegRm Absent, escaped: true, span: 4),
    row!(QUAD 0x80 Jcc Offset Double, escaped: true, span: 10, prefixes: PrefixRule::Branch),
    row!(QUAD 0x8c Jcc Offset Double, escaped: true, span: 4, prefixes: PrefixRule::Branch),
    row!(BYTE 0x90 Setcc Rm Absent, escaped: true, span: 10),
    row!(BYTE 0x9c Setcc Rm Absent, escaped: true, span: 4),
    row!(V 0xaf Imul2 RegRm Absent, escaped: true),
    row!(V 0xb6 Movzx RegRm Absent, escaped: true, source: Some(Width::W8)),
    row!(V 0xb7 Movzx RegRm Absent, escaped: true, source: Some(Width::W16)),
    row!(V 0xbe Movsx RegRm Absent, escaped: true, source: Some(Width::W8)),
    row!(V 0xbf Movsx RegRm Absent, escaped: true, source: Some(Width::W16)),
    row!(Y 0xc8 Bswap OpReg Absent, escaped: true, span: 8),
];

fn has_wanted(want: Option<u8>, value: u8) -> bool
    ensures { result ≡ wants want value }
{
    match want {
        Some(n) => n == value,
        None => true,
    }
}

fn is_row_at(escaped: bool, opcode: u8, row: &Row) -> bool
    ensures { result ≡ is_at escaped opcode row.now }
{
    row.escaped == escaped
        && row.opcode <= opcode
        && (opcode as u16) < row.opcode as u16 + row.span as u16
}

fn is_match(escaped: bool, opcode: u8, digit: u8, rex: Option<u8>, row: &Row) -> bool
    ensures { result ≡ matches escaped opcode digit rex row.now }
{
    let bits = rex_bits(rex);
    is_row_at(escaped, opcode, row)
        && has_wanted(row.digit, digit)
        && has_wanted(row.rex_b, bits.b)
        && has_wanted(row.rex_w, bits.w)
}

fn find_row(rows: &[Row], escaped: bool, opcode: u8, digit: u8, rex: Option<u8>) -> Option<Row>
    ensures { result ≡ find (matches escaped opcode digit rex) rows.now }
{
    for row in rows {
        if is_match(escaped, opcode, digit, rex, row) {
            return Some(*row);
        }
    }
    None
}

// For each sixteen opcodes, those of one byte first and then those after 0F, the place of the first
// row that may be for one of them.
static STARTS: [u8; 32] = [
    0, 12, 24, 36, 48, 48, 50, 55, 57, 90, 95, 97, 99, 114, 134, 137, // of one byte
    155, 157, 158, 158, 158, 160, 160, 160, 160, 162, 164, 165, 169, 170, 170, 170, // after 0F
];

fn block_of(escaped: bool, opcode: u8) -> usize
    ensures { result ≡ (if escaped then 16 else 0) + opcode / 16 }
{
    let block = opcode as usize / 16;
    if escaped { 16 + block } else { block }
}

// How many rows stand before the first that may be for the opcode.
fn start_of(escaped: bool, opcode: u8) -> usize
    ensures within { result ≤ length table }
    ensures skips { (digit : ℕ) (rex : Option ℕ) → find (matches escaped opcode digit rex) (drop result table) ≡ row_at escaped opcode digit rex }
{
    STARTS[block_of(escaped, opcode)] as usize
}

// The row that is for the opcode, the digit and the bits of REX.
pub fn row_of(escaped: bool, opcode: u8, digit: u8, rex: Option<u8>) -> Option<Row>
    ensures { result ≡ row_at escaped opcode digit rex }
{
    let (_, rows) = ROWS.split_at(start_of(escaped, opcode));
    find_row(rows, escaped, opcode, digit, rex)
}
