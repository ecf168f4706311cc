// The lines that a record prints.
ghost use Rattle.std.specs.Prelude.{◌≡◌, ◌+◌, ◌<◌, ◌≤◌, length, IfSome};
ghost use Rattle.byte_rows.specs.Rows.{over};
ghost use Rattle.text.specs.Pieces.{joined, room, widest};
ghost use Rattle.play.specs.Lines.{Lined, end_lines, last_detail, row_line, run_line, ring_number, ring_line, no_line, lines_of};

use crate::fault::{Event, PlayFault, Refusal};
use engine::{ReadOut, Report};
use noninterference::{Answer, Refusal as StepRefusal, VisitEnd};
use text::{Piece, put};

// The least size of a line buffer.
pub const BUFFER_SIZE: usize = 512;

// Writes the pieces from `at` on, and says where they end.
fn put_pieces(out: &mut [u8; BUFFER_SIZE], at: usize, pieces: &[Piece]) -> usize
    requires { at + room pieces.now ≤ 512 }
    ensures after { out.new ≡ over out.old at (joined pieces.now) }
    ensures place { result ≡ at + length (joined pieces.now) }
    ensures room { result ≤ at + room pieces.now }
{
    put(out, at, pieces).unwrap()
}

// Writes the line of eight registers, the first of which is 8 * n.
fn put_registers(out: &mut [u8; BUFFER_SIZE], at: usize, n: usize, row: &[u8; 8]) -> usize
    requires few { n < 8 }
    requires space { at + 28 ≤ 512 }
    ensures after { out.new ≡ over out.old at (joined (row_line n row.now)) }
    ensures place { result ≡ at + length (joined (row_line n row.now)) }
    ensures room { result ≤ at + 28 }
{
    let first = Piece::Octal2(8 * n as u8);
    put_pieces(
        out,
        at,
        &[
            Piece::Byte(b'R'),
            first,
            Piece::Row(*row),
            Piece::Byte(b'\n'),
        ],
    )
}

// The EN line, and eight lines of registers.
fn put_end(out: &mut [u8; BUFFER_SIZE], read_out: ReadOut) -> usize
    ensures { Lined out.old out.new result (joined (end_lines read_out)) }
{
    let space = Piece::Byte(b' ');
    let newline = Piece::Byte(b'\n');
    let mut wrote = put_pieces(
        out,
        0,
        &[
            Piece::Word(*b"EN "),
            Piece::Octal2(read_out.arp),
            space,
            Piece::Octal2(read_out.drp),
            space,
            Piece::Hex1(read_out.e),
            space,
            Piece::Hex2(u8::from(read_out.status)),
            newline,
        ],
    );
    let (rows, _) = read_out.registers.as_chunks::<8>();
    for (n, row) in rows.iter().enumerate() {
        wrote = put_registers(out, wrote, n, row);
    }
    wrote
}

// What the last answer of a run adds to its line.
fn last_detail(last: Option<Result<Answer, StepRefusal>>) -> Option<Piece>
    ensures piece { result ≡ last_detail last }
    ensures room { IfSome result (λ p. widest p ≤ 20) }
{
    match last? {
        Err(refusal) => Some(Piece::Decimal(u64::from(refusal.fault.number()))),
        Ok(answer) => match (answer.told, answer.ended) {
            (Some(address), _) => Some(Piece::Hex4(address)),
            (None, Some(VisitEnd::Marred(mar))) => Some(Piece::Decimal(u64::from(mar.number()))),
            (None, _) => None,
        },
    }
}

fn put_run(out: &mut [u8; BUFFER_SIZE], report: Report, pc: u16) -> usize
    ensures { Lined out.old out.new result (joined (run_line report pc)) }
{
    let word = Piece::Word(*b"RU ");
    let done = Piece::Decimal(u64::from(report.done));
    let space = Piece::Byte(b' ');
    let letter = Piece::Byte(report.letter.byte());
    let place = Piece::Hex4(pc);
    let newline = Piece::Byte(b'\n');
    match last_detail(report.last) {
        None => put_pieces(out, 0, &[word, done, space, letter, space, place, newline]),
        Some(detail) => put_pieces(
            out,
            0,
            &[
                word, done, space, letter, space, place, space, detail, newline,
            ],
        ),
    }
}

fn ring_number(outcome: Result<(), StepRefusal>) -> u8
    ensures { result ≡ ring_number outcome }
{
    match outcome {
        Ok(()) => 0,
        Err(refusal) => refusal.fault.number(),
    }
}

fn put_ring(out: &mut [u8; BUFFER_SIZE], outcome: Result<(), StepRefusal>, pc: u16) -> usize
    ensures { Lined out.old out.new result (joined (ring_line outcome pc)) }
{
    let number = Piece::Decimal(u64::from(ring_number(outcome)));
    put_pieces(
        out,
        0,
        &[
            Piece::Word(*b"RI "),
            number,
            Piece::Byte(b' '),
            Piece::Hex4(pc),
            Piece::Byte(b'\n'),
        ],
    )
}

// The number and the offset of a refused record.
fn put_no(out: &mut [u8; BUFFER_SIZE], fault: PlayFault) -> usize
    ensures { Lined out.old out.new result (joined (no_line fault)) }
{
    let number = Piece::Decimal(u64::from(fault.refusal.number()));
    let offset = Piece::Decimal(fault.offset as u64);
    put_pieces(
        out,
        0,
        &[
            Piece::Word(*b"NO "),
            number,
            Piece::Byte(b' '),
            offset,
            Piece::Byte(b'\n'),
        ],
    )
}

// Writes the lines of what came of a record at the front of the buffer, and says how many bytes they take.
#[tactic(auto, using(byte_rows::proofs::Writing::over_none, crate::proofs::Playing::joined_none))]
pub fn put_lines(out: &mut [u8; BUFFER_SIZE], outcome: Result<Event, PlayFault>) -> usize
    ensures { Lined out.old out.new result (lines_of outcome) }
{
    match outcome {
        Ok(Event::Loaded | Event::Began) => 0,
        Ok(Event::Ran { report, pc }) => put_run(out, report, pc),
        Ok(Event::Rang { outcome, pc }) => put_ring(out, outcome, pc),
        Ok(Event::Ended(read_out)) => put_end(out, read_out),
        // A buffer that is too small gets no line.
        Err(fault) if fault.refusal == Refusal::Buffer => 0,
        Err(fault) => put_no(out, fault),
    }
}
