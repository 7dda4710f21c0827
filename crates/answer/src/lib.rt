// What is said of a list, of a check and of a query. Here, in order: Reason, Refusal, Check, Verdict, Answer; number,
// place, count, sum (of an answer), fails_if, fails_at (checks of one thing and of many), first_below (a search). Each
// function is proved equal to its definition in specs/; searching, counting and summing by index, chains of checks and
// what a buffer holds after a refusal are defined there too, with their laws.
#![tactic(auto)]

ghost use Rattle.std.specs.Prelude.{◌≡◌, ◌<◌, ℕ, Bool};
ghost use Rattle.answer.specs.Refusal.{reason_number, refused_at};
ghost use Rattle.answer.specs.Answer.{number_of, place_of, count_of, sum_of};
ghost use Rattle.answer.specs.Chain.{fails_if, fails_at};
ghost use Rattle.answer.specs.Search.{first_from};

// Document 01's lines of refusals, each with its number.
#[derive(Clone, Copy)]
pub enum Reason {
    VertexList = 10,
    VertexBeyond = 11,
    VertexNull = 12,
    SameEnds = 13,
    AntipodalEnds = 14,
    ReferenceOffGrid = 15,
    ReferenceOnCircle = 16,
    QueryOffGrid = 17,
    QueryAntipodal = 18,
    SecondPoint = 19,
    FieldCut = 20,
    FieldTag = 21,
    FieldLength = 22,
    Charset = 23,
    TrailingBytes = 24,
    SheetRoom = 25,
    CutRecord = 26,
    ResultRoom = 27,
    OtherGrid = 28,
    PolygonText = 30,
    PositionOutside = 31,
    OpenRing = 32,
    PositionDistant = 33,
    ManyVertices = 34,
    ManySheets = 36,
}

impl Reason {
    pub fn number(self) -> u32
        ensures { result ≡ reason_number self }
    {
        self as u32
    }

    // The refusal at a place.
    pub fn at(self, place: usize) -> Refusal
        ensures { result ≡ refused_at self place }
    {
        Refusal {
            reason: self,
            place,
        }
    }
}

// Why an input is refused, and the place that its line names, or 0.
#[derive(Clone, Copy)]
pub struct Refusal {
    pub reason: Reason,
    pub place: usize,
}

// What a check says: nothing against the input, or the first refusal.
pub type Check = Result<(), Refusal>;

// What is said of an input that is not refused.
#[derive(Clone, Copy)]
pub enum Verdict {
    Done(usize),
    Inside(u32, i32),
    Outside(u32, i32),
    Boundary(usize),
}

// Document 01's answer, with document 02's sum beside the count. `specs/Answer.antt` gives its number, place, count and
// sum for each case.
pub type Answer = Result<Verdict, Refusal>;

pub fn number(answer: Answer) -> u32
    ensures { result ≡ number_of answer }
{
    match answer {
        Ok(Verdict::Done(_)) => 0,
        Ok(Verdict::Inside(_, _)) => 1,
        Ok(Verdict::Outside(_, _)) => 2,
        Ok(Verdict::Boundary(_)) => 3,
        Err(refusal) => refusal.reason.number(),
    }
}

pub fn place(answer: Answer) -> usize
    ensures { result ≡ place_of answer }
{
    match answer {
        Ok(Verdict::Done(place)) => place,
        Ok(Verdict::Inside(_, _) | Verdict::Outside(_, _)) => 0,
        Ok(Verdict::Boundary(edge)) => edge,
        Err(refusal) => refusal.place,
    }
}

pub fn count(answer: Answer) -> u32
    ensures { result ≡ count_of answer }
{
    match answer {
        Ok(Verdict::Inside(crossed, _) | Verdict::Outside(crossed, _)) => crossed,
        _ => 0,
    }
}

pub fn sum(answer: Answer) -> i32
    ensures { result ≡ sum_of answer }
{
    match answer {
        Ok(Verdict::Inside(_, sum) | Verdict::Outside(_, sum)) => sum,
        _ => 0,
    }
}

// A check of one thing, with place 0.
pub fn fails_if(reason: Reason, bad: bool) -> Check
    ensures { result ≡ fails_if reason bad }
{
    if bad {
        return Err(reason.at(0));
    }
    Ok(())
}

// A check of many things, by the lowest place that a search found.
pub fn fails_at(reason: Reason, found: Option<usize>) -> Check
    ensures { result ≡ fails_at reason found }
{
    match found {
        Some(place) => Err(reason.at(place)),
        None => Ok(()),
    }
}

// The lowest number below n that passes the test.
pub fn first_below<F: Fn(usize) -> bool>(n: usize, test: F) -> Option<usize>
    requires { (i : ℕ) → i < n → F.pre test i }
    ensures { (t : ℕ → Bool) → ((i : ℕ) (b : Bool) → i < n → F.post test i b → b ≡ t i) → result ≡ first_from t 0 n }
{
    for i in 0..n {
        if test(i) {
            return Some(i);
        }
    }
    None
}
