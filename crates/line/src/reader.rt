// Reading commands from a line.
ghost use Rattle.std.specs.Prelude.{◌≡◌, ◌+◌, drop};
ghost use Rattle.line.specs.Commands.{first, begun, order_of, operands, InPlace};
ghost use Rattle.std.specs.Result.{result_map_both};

use crate::command::Command;
use crate::refusal::LineFault;

// The first bytes, as many as the array has.
fn front<const N: usize>(bytes: &[u8]) -> Result<&[u8; N], LineFault>
    ensures { result_map_both (λ s. s.now) (λ e. e) result ≡ operands N bytes.now (λ xs. xs) }
{
    bytes.first_chunk().ok_or(LineFault::CutOff)
}

// The command that a byte begins, with the rest of the line, which lies at `place`.
#[inline]
fn begin(byte: u8, rest: &[u8], place: usize) -> Result<Command<'_>, LineFault>
    ensures command { result_map_both order_of (λ e. e) result ≡ begun byte rest.now }
    ensures place { InPlace place result }
{
    match byte {
        0x46 => {
            let &[family] = front::<1>(rest)?;
            Ok(Command::Choose { family })
        }
        0x4f => {
            let label = u32::from_le_bytes(*front::<4>(rest)?);
            Ok(Command::Open { label })
        }
        0x42 => {
            let &[byte] = front::<1>(rest)?;
            Ok(Command::Byte { byte })
        }
        0x51 => {
            let bytes = front::<16>(rest)?;
            Ok(Command::Block { bytes, place })
        }
        0x5a => Ok(Command::Seal),
        0x58 => Ok(Command::Strike),
        0x43 => {
            let &[a, b, c, d, s, t, u, v, w, x, y, z] = front::<12>(rest)?;
            let number = u32::from_le_bytes([a, b, c, d]);
            let tag = u64::from_le_bytes([s, t, u, v, w, x, y, z]);
            Ok(Command::Check { number, tag })
        }
        _ => Err(LineFault::NoSuchCommand),
    }
}

// The command at `at`, or why there is none.
#[inline]
pub fn read_command(line: &[u8], at: usize) -> Result<Command<'_>, LineFault>
    ensures command { result_map_both order_of (λ e. e) result ≡ first (drop at line.now) }
    ensures place { InPlace (at + 1) result }
{
    let bytes = line.get(at..).ok_or(LineFault::CutOff)?;
    let (&byte, rest) = bytes.split_first().ok_or(LineFault::CutOff)?;
    begin(byte, rest, at + 1)
}
