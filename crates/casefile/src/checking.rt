// Checking a case file: head, contents, then body by body. The first refusal is the answer.
ghost use Rattle.std.specs.Prelude.{Ok, ◌≡◌, not, ◌||◌, ◌+◌, ◌*◌, ◌≤◌, ltb, eqb, length};
ghost use Rattle.rules.specs.Lists.{each, all};
ghost use Rattle.rules.specs.Layout.{edition, body};
ghost use Rattle.rules.specs.Refusal.{in_order, edition_verdict, head_verdict, start, legal_size, entry_fits, contents_verdict, body_verdict, file_verdict};
ghost use Rattle.casefile.specs.Clauses.{HeadRead, BodyInside, FitTold};

use bodies::{edges_start, read_body};
use rules::Refusal;
use unit::check_numbers;

// Whether a body has at most four zones and the length that they ask for.
pub fn body_fits(body: &[u8], edition: u16) -> bool
    requires { 26 ≤ length body.now }
    ensures { FitTold edition body.now result }
{
    let zone_count = usize::from(fields::read::<u16>(body, 24));
    zone_count <= 4 && body.len() == edges_start(edition) + 4 * zone_count
}

// A body: its zone count against its length, then the numbers of its unit.
fn check_body(body: &[u8], edition: u16) -> Result<(), Refusal>
    requires { 26 ≤ length body.now }
    ensures { result ≡ body_verdict edition body.now }
{
    if !body_fits(body, edition) {
        return Err(Refusal::ZoneCountInvalid);
    }
    check_numbers(read_body(body, edition))
}

// The edition, which is from 1 to `newest`, read only once the file is long enough for a head.
#[tactic(auto, unfolding(rules::specs::Refusal::edition_verdict))]
pub fn check_edition(file: &[u8], newest: u16) -> Result<(), Refusal>
    ensures { result ≡ edition_verdict newest file.now }
{
    if file.len() < 8 {
        return Err(Refusal::FileTooShort);
    }
    let edition = fields::read::<u16>(file, 0);
    if edition < 1 || edition > newest {
        return Err(Refusal::EditionUnknown);
    }
    Ok(())
}

// The head of a file of either edition.
#[tactic(auto, using(crate::proofs::Head::edition_long), unfolding(rules::specs::Refusal::head_verdict))]
pub fn check_head(file: &[u8]) -> Result<(), Refusal>
    ensures { result ≡ head_verdict file.now }
{
    check_edition(file, 2)?;
    let n = fields::read::<u16>(file, 2);
    if n < 1 || n > 32 {
        return Err(Refusal::CountOutOfRange);
    }
    if fields::read::<u32>(file, 4) > 320000 {
        return Err(Refusal::DemandOutOfRange);
    }
    Ok(())
}

// Whether a body may have this length: some number of zones, 0 to 4, makes it so long.
fn legal_size(edition: u16, size: u16) -> bool
    ensures { result ≡ legal_size edition size }
{
    let size = usize::from(size);
    let start = edges_start(edition);
    size >= start && matches!(size - start, 0 | 4 | 8 | 12 | 16)
}

// Whether an entry, or the end of the last body, is not where the one before it says. `at` is where the next body starts.
fn contents_invalid(file: &[u8], n: usize) -> bool
    requires { HeadRead file.now n }
    ensures { result ≡ (ltb (length file.now) (8 + 4 * n) || not (all (entry_fits file.now) (each n (λ i. i))) || not (eqb (start file.now n) (length file.now))) }
{
    let mut at = 8 + 4 * n;
    if file.len() < at {
        return true;
    }
    let edition = fields::read::<u16>(file, 0);
    for i in 0..n {
        let offset = usize::from(fields::read::<u16>(file, 8 + 4 * i));
        let size = fields::read::<u16>(file, 10 + 4 * i);
        if offset != at || !legal_size(edition, size) {
            return true;
        }
        at = offset + usize::from(size);
    }
    at != file.len()
}

// The contents of a file whose head names `n` units.
#[tactic(auto, unfolding(rules::specs::Refusal::contents_verdict))]
pub fn check_contents(file: &[u8], n: usize) -> Result<(), Refusal>
    requires { HeadRead file.now n }
    ensures { result ≡ contents_verdict file.now }
{
    if contents_invalid(file, n) {
        return Err(Refusal::ContentsInvalid);
    }
    Ok(())
}

// The part of the file that entry `i` names.
pub fn body_of(file: &[u8], i: usize) -> &[u8]
    requires { BodyInside file.now i }
    ensures { result.now ≡ body file.now i }
{
    let offset = usize::from(fields::read::<u16>(file, 8 + 4 * i));
    let size = usize::from(fields::read::<u16>(file, 10 + 4 * i));
    &file[offset..offset + size]
}

// The bodies, in order, of a file whose contents are accepted.
fn check_bodies(file: &[u8], n: usize) -> Result<(), Refusal>
    requires head_read { HeadRead file.now n }
    requires file_value { contents_verdict file.now ≡ Ok tt }
    ensures { result ≡ in_order (each n (λ i. body_verdict (edition file.now) (body file.now i))) }
{
    let edition = fields::read::<u16>(file, 0);
    for i in 0..n {
        check_body(body_of(file, i), edition)?;
    }
    Ok(())
}

// The verdict on a file of any bytes.
#[tactic(auto, using(crate::proofs::Head::head_read), unfolding(rules::specs::Refusal::file_verdict))]
pub fn check(file: &[u8]) -> Result<(), Refusal>
    ensures { result ≡ file_verdict file.now }
{
    check_head(file)?;
    let n = usize::from(fields::read::<u16>(file, 2));
    check_contents(file, n)?;
    check_bodies(file, n)
}
