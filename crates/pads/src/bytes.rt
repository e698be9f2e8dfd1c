// Pads as bytes: eight for a pad, the lowest first.
ghost use Rattle.std.specs.Prelude.{◌≡◌};
ghost use Rattle.pads.specs.Stored.{pads_of, sheet_read, written};

// The bytes of a pad.
const WIDTH: usize = 8;

// The number of bytes is no multiple of eight.
#[derive(Clone, Copy, PartialEq, Eq, Debug)]
pub struct SheetError;

// Writes the pads that the bytes hold into the places, as many as there are places for.
fn write_pads(bytes: &[u8], places: &mut [u64])
    ensures { places.new ≡ written (pads_of bytes.now) places.old }
{
    // As jobs reads words, but in eights: numbers of two widths have no trait in common. A zip of places says nothing of
    // what was written.
    let (pads, _) = bytes.as_chunks::<WIDTH>();
    for (number, place) in places.iter_mut().enumerate() {
        let Some(pad) = pads.get(number) else {
            return;
        };
        *place = u64::from_le_bytes(*pad);
    }
}

// Writes the pads that the bytes hold into the places, as many as there are places for, and says how many the
// bytes hold.
pub fn read_sheet(bytes: &[u8], places: &mut [u64]) -> Result<usize, SheetError>
    ensures answer { result ≡ (sheet_read bytes.now places.old).0 }
    ensures places { places.new ≡ (sheet_read bytes.now places.old).1 }
{
    if bytes.len() % WIDTH != 0 {
        return Err(SheetError);
    }
    write_pads(bytes, places);
    Ok(bytes.len() / WIDTH)
}
