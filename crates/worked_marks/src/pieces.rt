// The root tag of a document that is fed in pieces.
ghost use Rattle.std.specs.Prelude.{◌≡◌, ◌<◌, ◌≤◌, IfSome};
ghost use Rattle.jobs.specs.Roots.{root_tag};
ghost use Rattle.jobs.specs.Jobs.{fed, fresh};

use families::Family;
use jobs::OpenJob;

// How a document is fed: a case, and no closure, since which vectors suit it depends on it too.
#[derive(Clone, Copy)]
pub enum Feeding<'a> {
    // In pieces of these lengths, over and over.
    Pieces(&'a [usize]),
    // Whole, with a byte behind it that has to be refused.
    PastLimit,
}

// The length of the next piece: the size whose turn it is, or all, within what is left.
fn next_size(turn: Option<&usize>, left: usize) -> usize
    requires { 0 < left }
    ensures some { 0 < result }
    ensures within { result ≤ left }
{
    turn.map_or(left, |size| (*size).max(1).min(left))
}

// The two cases of `root_tag`, with its clause: no plainer as methods of a struct that they alone would have.
fn in_pieces<F: Family>(card: &[u32], label: u32, document: &[u8], sizes: &[usize]) -> Option<u64>
    ensures { IfSome result (λ tag. tag ≡ root_tag F.meaning card.now (fed (fresh label) document.now)) }
{
    let mut job = OpenJob::<F>::open(card, label).ok()?;
    let mut rest = document;
    let mut turns = sizes.iter().cycle();
    while !rest.is_empty() {
        let (piece, more) = rest.split_at(next_size(turns.next(), rest.len()));
        job.feed(piece).ok()?;
        rest = more;
    }
    Some(job.close().root_tag())
}

fn past_limit<F: Family>(card: &[u32], label: u32, document: &[u8]) -> Option<u64>
    ensures { IfSome result (λ tag. tag ≡ root_tag F.meaning card.now (fed (fresh label) document.now)) }
{
    let mut job = OpenJob::<F>::open(card, label).ok()?;
    job.feed(document).ok()?;
    if job.feed(&[0]).is_ok() {
        return None;
    }
    Some(job.close().root_tag())
}

// The root tag of the document, however it is fed.
pub fn root_tag<F: Family>(
    card: &[u32],
    label: u32,
    document: &[u8],
    feeding: Feeding,
) -> Option<u64>
    ensures { IfSome result (λ tag. tag ≡ root_tag F.meaning card.now (fed (fresh label) document.now)) }
{
    match feeding {
        Feeding::Pieces(sizes) => in_pieces::<F>(card, label, document, sizes),
        Feeding::PastLimit => past_limit::<F>(card, label, document),
    }
}
