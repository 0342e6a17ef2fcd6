// A reel, records of an edition back to back, and what stands at a place of it. FORMAT, "The reel". Every public function takes
// any edition, any bytes and any place.
#![tactic(auto)]

ghost use Rattle.std.specs.Prelude.{◌≡◌, ◌<◌, ◌^◌, None};
ghost use Rattle.answers.specs.Refused.{refusal_in, answer_by};
ghost use Rattle.reel.specs.Reel.{words_in, rest_refusal, step_at, record_at, next_place};
ghost use Rattle.reel.specs.Shown.{shown_step, shown_bytes};
ghost use Rattle.reel.specs.Reader.{at_start, step_of, record_of, moved_on, bytes_answer};

use answers::Refusal;

// Where a record lies in a reel: from `start` up to `end`. Not a `Range`, which is not Copy: a caller may keep what stands at a place
// and hand it on.
#[derive(Clone, Copy)]
pub struct Span {
    pub start: usize,
    pub end: usize,
}

// The length in words of the record that what is left begins with.
#[tactic(auto, using(crate::proofs::Rest::words_small))]
fn words_in(rest: &[u8]) -> usize
    ensures { (result ≡ words_in rest.now) × (result < 2 ^ 16) }
{
    fields::read_field(rest, header::LENGTH_WORDS) as usize
}

// Whether the record that what is left begins with, of this length in words, is accepted. No record is shorter than a header.
#[tactic(auto, unfolding(crate::specs::Reel::rest_refusal))]
fn judge_rest(edition: u64, rest: &[u8], words: usize) -> Result<(), Refusal>
    requires { (words ≡ words_in rest.now) × (words < 2 ^ 16) }
    ensures { refusal_in result ≡ rest_refusal edition rest.now }
{
    let header_bytes = editions::header_bytes(edition);
    if rest.len() < header_bytes || words < header_bytes / 2 {
        return Err(Refusal::TooShort);
    }
    let size = 2 * words;
    if rest.len() < size {
        return Err(Refusal::WrongLength);
    }
    record::judge(edition, &rest[..size])
}

// What stands at the place: where a record lies in the reel, nothing more, or the refusal.
#[tactic(auto, unfolding(crate::specs::Reel::step_at))]
pub fn step_at(edition: u64, reel: &[u8], place: usize) -> Result<Option<Span>, Refusal>
    ensures { shown_step result ≡ step_at edition reel.now place }
{
    if editions::is_unknown(edition) {
        return Err(Refusal::NoSuchEdition);
    }
    if reel.len() <= place {
        return Ok(None);
    }
    let rest = &reel[place..];
    let words = words_in(rest);
    judge_rest(edition, rest, words)?;
    Ok(Some(Span {
        start: place,
        end: place + 2 * words,
    }))
}

// The place past the record at a place, or the place itself where there is none.
pub fn next_place(edition: u64, reel: &[u8], place: usize) -> usize
    ensures { result ≡ next_place edition reel.now place }
{
    match step_at(edition, reel, place) {
        Ok(Some(record)) => record.end,
        Ok(None) | Err(_) => place,
    }
}

// The bytes of the record at a place, a part of the reel; empty where there is none. Not an Option: `record_at` of
// specs/Reel, which the theorems of walks name, is a list, and `next_place` a place.
#[tactic(auto, using(crate::proofs::Place::within))]
pub fn record_at<'a>(edition: u64, reel: &'a [u8], place: usize) -> &'a [u8]
    ensures { result.now ≡ record_at edition reel.now place }
{
    match step_at(edition, reel, place) {
        Ok(Some(record)) => &reel[record.start..record.end],
        Ok(None) | Err(_) => &[],
    }
}

// The edition of a reel, the reel, and the place reached in it.
#[derive(Clone, Copy)]
pub struct Reader<'a> {
    pub edition: u64,
    pub reel: &'a [u8],
    pub place: usize,
}

impl<'a> Reader<'a> {
    // A reader at place 0.
    pub fn new(edition: u64, reel: &'a [u8]) -> Reader<'a>
        ensures { result ≡ at_start edition reel.entry }
    {
        Reader {
            edition,
            reel,
            place: 0,
        }
    }

    // What stands at the place reached.
    pub fn peek(self) -> Result<Option<Span>, Refusal>
        ensures { shown_step result ≡ step_of self.entry }
    {
        step_at(self.edition, self.reel, self.place)
    }

    // The bytes of the record at the place reached, empty where there is none.
    pub fn record(self) -> &'a [u8]
        ensures { result.now ≡ record_of self.entry }
    {
        record_at(self.edition, self.reel, self.place)
    }

    // The bytes of the record at the place reached, past which the reader then is; where there is none, nothing more or the
    // refusal, and the reader as it was.
    #[tactic(auto, using(crate::proofs::Place::within))]
    pub fn read(&mut self) -> Result<Option<&'a [u8]>, Refusal>
        ensures result_value { answer_by shown_bytes None result ≡ bytes_answer self.old }
        ensures self_after { self.new ≡ moved_on self.old }
    {
        match self.peek()? {
            Some(record) => {
                self.place = record.end;
                Ok(Some(&self.reel[record.start..record.end]))
            }
            None => Ok(None),
        }
    }

    // The reader past the record at its place; on a refusal and at the end, the reader as it was.
    pub fn next(self) -> Reader<'a>
        ensures { result ≡ moved_on self.entry }
    {
        let place = next_place(self.edition, self.reel, self.place);
        Reader { place, ..self }
    }
}

// What stands at the place, by a reader made there: for callers that hold a reel and a place, as C does.
pub fn step_by_reader(edition: u64, reel: &[u8], place: usize) -> Result<Option<Span>, Refusal>
    ensures { shown_step result ≡ step_at edition reel.now place }
{
    Reader {
        edition,
        reel,
        place,
    }
    .peek()
}
