#![tactic(auto)]

// Whole lines, run.
#[cfg(test)]
mod tests {
    use line::{BookFault, LineFault, PadFault, Refusal, run_line};

    // A card of ones, as bytes.
    fn ones() -> [u8; 656] {
        let mut card = [0; 656];
        for low in card.iter_mut().step_by(4) {
            *low = 1;
        }
        card
    }

    const ONE_PAD: [u8; 8] = [100, 0, 0, 0, 0, 0, 0, 0];

    const TWO_PADS: [u8; 16] = [100, 0, 0, 0, 0, 0, 0, 0, 200, 0, 0, 0, 0, 0, 0, 0];

    // Chooses NH, seals an empty job with label 7 and checks it, strikes a number, and seals with no job open.
    const SEALED_AND_CHECKED: [u8; 28] = [
        0x46, 1, 0x4f, 7, 0, 0, 0, 0x5a, 0x4f, 7, 0, 0, 0, 0x43, 0, 0, 0, 0, 0x71, 0, 0, 0, 0, 0,
        0, 0, 0x58, 0x5a,
    ];

    const ANSWERS: [u8; 30] = [
        0x53, 0, 0, 0, 0, 0x71, 0, 0, 0, 0, 0, 0, 0, 0x59, 0, 0, 0, 0, 0x58, 1, 0, 0, 0, 0x52, 2,
        18, 27, 0, 0, 0,
    ];

    #[test]
    fn a_job_is_sealed_and_checked(rt: HostRuntime) {
        let mut buffer = [9u8; 364];
        let result = run_line(&ones(), &TWO_PADS, &SEALED_AND_CHECKED, &mut buffer);
        assert_eq!(rt; result, Ok(30));
        assert!(rt; buffer[0..30] == ANSWERS[..]);
        assert!(rt; buffer[30..364] == [9u8; 334][..]);
    }

    #[test]
    fn an_empty_line_answers_nothing(rt: HostRuntime) {
        let mut buffer = [9u8; 4];
        assert_eq!(rt; run_line(&ones(), &ONE_PAD, &[], &mut buffer), Ok(0));
        assert_eq!(rt; buffer, [9; 4]);
    }

    #[test]
    fn lines_have_4096_bytes_at_most(rt: HostRuntime) {
        let mut buffer = [9u8; 53_261];
        assert_eq!(rt;
            run_line(&ones(), &ONE_PAD, &[0x58; 4096], &mut buffer),
            Ok(28_672)
        );
        let refused = run_line(&ones(), &ONE_PAD, &[0x58; 4097], &mut buffer);
        assert_eq!(rt; refused, Err(Refusal::Line(LineFault::LongLine)));
    }

    #[test]
    fn a_short_buffer_keeps_its_bytes(rt: HostRuntime) {
        let mut buffer = [9u8; 12];
        let refused = run_line(&ones(), &ONE_PAD, &[0x5a], &mut buffer);
        assert_eq!(rt; refused, Err(Refusal::Line(LineFault::ShortBuffer)));
        assert_eq!(rt; buffer, [9; 12]);
    }

    #[test]
    fn cards_have_656_bytes(rt: HostRuntime) {
        let refused = run_line(&[1; 652], &[0; 9], &[], &mut []);
        assert_eq!(rt; refused, Err(Refusal::Book(BookFault::Card)));
    }

    #[test]
    fn sheets_have_1_to_256_pads(rt: HostRuntime) {
        let card = ones();
        let count = Err(Refusal::Book(BookFault::PadCount));
        assert_eq!(rt;
            run_line(&card, &[0; 9], &[], &mut []),
            Err(Refusal::Pad(PadFault::SheetSize))
        );
        assert_eq!(rt; run_line(&card, &[], &[], &mut []), count);
        assert_eq!(rt; run_line(&card, &[1; 2056], &[], &mut []), count);
        assert_eq!(rt; run_line(&card, &[1; 2048], &[], &mut []), Ok(0));
    }
}
