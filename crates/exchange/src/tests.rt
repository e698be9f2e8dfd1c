use crate::{Refusal, transfer};
use books::{
    CheckError, FewPlaces, NoneOut, OfficeBook, PadCountError, TableBook, TakeError, WrongPad,
    open_books,
};
use families::{Family, MmhStar, Nh};
use jobs::{ClosedJob, OpenJob};
use pads::{NoSuchPad, PadSource, Sheet, SplitSheet};
use std::test::Fail;

const PADS: [u64; 3] = [5, 6, 7];

fn closed<F: Family>(document: &[u8]) -> Result<ClosedJob<F>, Fail> {
    let mut job = OpenJob::<F>::open(&[3; 164], 1)?;
    job.feed(document)?;
    Ok(job.close())
}

#[test]
fn a_sealed_job_is_accepted_once(rt: HostRuntime) -> Result<(), Fail> {
    let job = closed::<Nh>(b"keel")?;
    let sheet = Sheet::new(&PADS);
    let (mut office, mut table) = open_books(sheet, sheet)?;
    let pad = office.take()?;
    let (number, tag) = office.seal(pad, &job)?;
    assert_eq!(rt; number, 0);
    assert_eq!(rt; tag, job.root_tag().wrapping_add(5));
    assert_eq!(rt; table.check(&job, number, tag), Ok(()));
    assert_eq!(rt; table.check(&job, number, tag), Err(CheckError::OldNumber));
    Ok(())
}

#[test]
fn checks_are_refused_in_order(rt: HostRuntime) -> Result<(), Fail> {
    let job = closed::<Nh>(b"keel")?;
    let mut table = TableBook::open(Sheet::new(&PADS))?;
    let tag = job.root_tag().wrapping_add(6);
    assert_eq!(rt;
        table.check(&job, 3, tag),
        Err(CheckError::Source(NoSuchPad))
    );
    assert_eq!(rt;
        table.check(&closed::<Nh>(b"rib")?, 1, tag),
        Err(CheckError::WrongTag)
    );
    assert_eq!(rt; table.check(&job, 1, tag), Ok(()));
    assert_eq!(rt; table.check(&job, 0, tag), Err(CheckError::OldNumber));
    Ok(())
}

#[test]
fn struck_numbers_are_listed(rt: HostRuntime) -> Result<(), Fail> {
    let split = SplitSheet::new(Sheet::new(&PADS), Sheet::new(&PADS));
    let mut office = OfficeBook::open(split)?;
    assert_eq!(rt; office.call_in(), Err(NoneOut));
    let first = office.take()?;
    office.strike(first)?;
    let second = office.take()?;
    let called_in = office.call_in();
    // The pad of a number that was called in is used up all the same.
    let late = office.strike(second);
    assert_eq!(rt; called_in, Ok(1));
    assert_eq!(rt; late, Err(WrongPad));
    let mut places = [9; 3];
    assert_eq!(rt; office.list_struck(&mut places), Ok(2));
    assert_eq!(rt; places, [0, 1, 9]);
    let mut few = [9];
    assert_eq!(rt; office.list_struck(&mut few), Err(FewPlaces));
    assert_eq!(rt; few, [9]);
    Ok(())
}

// What a taking is refused for.
fn take_refusal(office: &mut OfficeBook<Sheet>) -> Option<TakeError> {
    let taken = office.take();
    taken.map(|pad| office.strike(pad)).err()
}

#[test]
fn a_pad_is_taken_at_a_time(rt: HostRuntime) -> Result<(), Fail> {
    let mut office = OfficeBook::open(Sheet::new(&[5]))?;
    let pad = office.take()?;
    let second = take_refusal(&mut office);
    office.strike(pad)?;
    assert_eq!(rt; second, Some(TakeError::PadOut));
    assert_eq!(rt; take_refusal(&mut office), Some(TakeError::AllTaken));
    Ok(())
}

#[test]
fn a_pad_of_another_book_is_refused(rt: HostRuntime) -> Result<(), Fail> {
    let job = closed::<Nh>(b"keel")?;
    let mut office = OfficeBook::open(Sheet::new(&PADS))?;
    let mut other = OfficeBook::open(Sheet::new(&[8, 9]))?;
    let pad = other.take()?;
    assert_eq!(rt; office.seal(pad, &job), Err(WrongPad));
    assert_eq!(rt; other.call_in(), Ok(0));
    Ok(())
}

// The pad of number 0 goes to another book and is used up, so that number stays out.
#[test]
fn a_pad_of_the_same_number_is_refused(rt: HostRuntime) -> Result<(), Fail> {
    let job = closed::<Nh>(b"keel")?;
    let mut office = OfficeBook::open(Sheet::new(&PADS))?;
    let mut other = OfficeBook::open(Sheet::new(&[8, 9]))?;
    let lost = office.take()?;
    assert_eq!(rt; other.strike(lost), Err(WrongPad));
    let pad = other.take()?;
    assert_eq!(rt; office.seal(pad, &job), Err(WrongPad));
    assert_eq!(rt; office.call_in(), Ok(0));
    assert_eq!(rt; office.call_in(), Err(NoneOut));
    Ok(())
}

#[test]
fn tags_are_below_the_modulus(rt: HostRuntime) -> Result<(), Fail> {
    let job = closed::<MmhStar>(b"keel")?;
    let mut table = TableBook::open(Sheet::new(&PADS))?;
    assert_eq!(rt;
        table.check(&job, 0, 4_294_967_310),
        Err(CheckError::WrongTag)
    );
    assert_eq!(rt;
        table.check(&job, 0, 4_294_967_311),
        Err(CheckError::NotATag)
    );
    Ok(())
}

#[test]
fn books_have_1_to_256_pads(rt: HostRuntime) {
    assert!(rt; OfficeBook::open(Sheet::new(&[])).is_err());
    assert!(rt; OfficeBook::open(Sheet::new(&[4; 256])).is_ok());
    assert!(rt; OfficeBook::open(Sheet::new(&[4; 257])).is_err());
    assert!(rt; TableBook::open(Sheet::new(&[4; 256])).is_ok());
    assert!(rt; TableBook::open(Sheet::new(&[4; 257])).is_err());
}

#[test]
fn transfers(rt: HostRuntime) -> Result<(), Fail> {
    let job = closed::<Nh>(b"keel")?;
    let other = closed::<Nh>(b"rib")?;
    let tag = job.root_tag().wrapping_add(5);
    let sheet = Sheet::new(&PADS);
    assert_eq!(rt; transfer(sheet, &job, &job, tag), Ok((0, tag)));
    assert_eq!(rt;
        transfer(sheet, &job, &other, tag),
        Err(Refusal::Check(CheckError::WrongTag))
    );
    assert_eq!(rt;
        transfer(Sheet::new(&[]), &job, &job, tag),
        Err(Refusal::Open(PadCountError))
    );
    Ok(())
}

// What an office holds, whatever its sources are.
#[derive(Drop)]
struct Office<F: Family, A: PadSource, B: PadSource> {
    book: OfficeBook<SplitSheet<A, B>>,
    job: OpenJob<F>,
}

impl<F: Family, A: PadSource, B: PadSource> Office<F, A, B> {
    fn feed(&mut self, piece: &[u8]) -> bool {
        self.job.feed(piece).is_ok()
    }

    fn take(&mut self) -> Option<u32> {
        let pad = self.book.take().ok()?;
        let number = pad.number();
        let _ = self.book.strike(pad);
        Some(number)
    }
}

// Byte by byte, in a function that knows neither sources nor family.
fn fed_in_office<F: Family, A: PadSource + Drop, B: PadSource + Drop>(
    book: OfficeBook<SplitSheet<A, B>>,
    job: OpenJob<F>,
    document: &[u8],
) -> Option<(u32, u64)> {
    let mut office = Office { book, job };
    for byte in document {
        if !office.feed(&[*byte]) {
            return None;
        }
    }
    let number = office.take()?;
    let Office { book: _, job } = office;
    Some((number, job.close().root_tag()))
}

#[test]
fn an_office_is_generic_in_its_sources(rt: HostRuntime) -> Result<(), Fail> {
    let sheet = Sheet::new(&PADS);
    let book = OfficeBook::open(SplitSheet::new(sheet, sheet))?;
    let job = OpenJob::<Nh>::open(&[3; 164], 1)?;
    let root = closed::<Nh>(b"keel")?.root_tag();
    assert_eq!(rt; fed_in_office(book, job, b"keel"), Some((0, root)));
    Ok(())
}
