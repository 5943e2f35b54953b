// Four bytes of code to an instruction: the opcode's registers are tested against a table, then it is made.
#![tactic(auto)]

ghost use Rattle.std.specs.Prelude.{◌≡◌, ◌+◌, ◌*◌, get_or};
ghost use Rattle.machine.specs.Decode.{last_opcode, register_masks, operands_fit, instruction_of, decode_of, fetched};

use machine::Instr;
use octets::entry_or;

// An opcode past the table is no instruction, whatever its operands. The rules ask for a match over the opcode with a closing range (a).
#[tactic(auto, unfolding(machine::specs::Decode::instruction_of))]
fn instruction(op: u8, a: u8, b: u8, c: u8) -> Option<Instr>
    ensures { result ≡ instruction_of last_opcode op a b c }
{
    let ra = u32::from(a);
    let rb = u32::from(b);
    let rc = u32::from(c);
    // Made before the match: its two bytes are then one load.
    let n = rb + 256 * rc;
    match op {
        0 => Some(Instr::Halt),
        1 => Some(Instr::Set(ra, n)),
        2 => Some(Instr::Add(ra, rb, rc)),
        3 => Some(Instr::Sub(ra, rb, rc)),
        4 => Some(Instr::And(ra, rb, rc)),
        5 => Some(Instr::Xor(ra, rb, rc)),
        6 => Some(Instr::Shift(ra, rb, rc)),
        7 => Some(Instr::Load(ra, rb, rc)),
        8 => Some(Instr::Store(ra, rb, rc)),
        9 => Some(Instr::Jump(ra, n)),
        10 => Some(Instr::Wait),
        11 => Some(Instr::Listen(a, n)),
        12 => Some(Instr::Back),
        13 => Some(Instr::LoadWord(ra, rb, rc)),
        14 => Some(Instr::StoreWord(ra, rb, rc)),
        15 => Some(Instr::Count(ra)),
        16..=255 => None,
    }
}

// By opcode, which operand bytes must be registers: 1 for a, 2 for b, 4 for c.
const REGISTERS: [u8; 16] = [0, 1, 7, 7, 7, 7, 7, 3, 3, 1, 0, 0, 0, 3, 3, 1];

// Past the table no operand must be a register.
fn mask_of(op: u8) -> u8
    ensures { result ≡ get_or register_masks op 0 }
{
    REGISTERS.get(usize::from(op)).copied().unwrap_or(0)
}

#[tactic(auto, unfolding(machine::specs::Decode::operands_fit, machine::specs::Decode::operand_fits))]
fn operands_fit(mask: u8, a: u8, b: u8, c: u8) -> bool
    ensures { result ≡ operands_fit mask a b c }
{
    let first = (mask & 1 == 0) | (a < 8);
    let second = (mask & 2 == 0) | (b < 8);
    let third = (mask & 4 == 0) | (c < 8);
    first & (second & third)
}

#[tactic(auto, unfolding(machine::specs::Decode::decode_of))]
fn tested(op: u8, a: u8, b: u8, c: u8) -> Option<Instr>
    ensures { result ≡ decode_of last_opcode op a b c }
{
    if operands_fit(mask_of(op), a, b, c) {
        instruction(op, a, b, c)
    } else {
        None
    }
}

// The instruction of four bytes; a bad opcode or register is another answer. Each opcode is passed on as a constant:
// indexed by it, the table folds away in the compiled code, and so does the second match.
#[tactic(auto, using(machine::proofs::Laws::Opcodes::decode_above))]
pub fn decode(op: u8, a: u8, b: u8, c: u8) -> Option<Instr>
    ensures { result ≡ decode_of last_opcode op a b c }
{
    match op {
        0 => tested(0, a, b, c),
        1 => tested(1, a, b, c),
        2 => tested(2, a, b, c),
        3 => tested(3, a, b, c),
        4 => tested(4, a, b, c),
        5 => tested(5, a, b, c),
        6 => tested(6, a, b, c),
        7 => tested(7, a, b, c),
        8 => tested(8, a, b, c),
        9 => tested(9, a, b, c),
        10 => tested(10, a, b, c),
        11 => tested(11, a, b, c),
        12 => tested(12, a, b, c),
        13 => tested(13, a, b, c),
        14 => tested(14, a, b, c),
        15 => tested(15, a, b, c),
        16..=255 => None,
    }
}

// The instruction at a place of the code segment, which is lent.
#[tactic(auto, unfolding(machine::specs::Decode::fetched))]
pub fn fetch(code: &[u8], at: u16) -> Option<Instr>
    ensures { result ≡ fetched last_opcode code.now at }
{
    let i = usize::from(at);
    decode(
        entry_or(code, i, 0),
        entry_or(code, i + 1, 0),
        entry_or(code, i + 2, 0),
        entry_or(code, i + 3, 0),
    )
}
