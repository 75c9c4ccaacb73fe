// The net on a lent sheet: the draft that fills it, and the readings of it.
#![tactic(auto)]

ghost use Rattle.std.specs.Prelude.{◌≡◌, ℕ, ◌+◌, ◌*◌, ◌<◌, ◌≤◌, true, false, [], length, not, position, Ok, slice_index, slice_index_or};
ghost use Rattle.net.specs.declared.net.Look.TheVariants.{Mark, Support};
ghost use Rattle.net.specs.Sheets.{base, sheet_of};
ghost use Rattle.net.specs.Refusals.{judged, origin_at, net_told, placed};
ghost use Rattle.net.specs.States.{view, question_number, Answered};
ghost use Rattle.net.specs.Looks.{looked, weighed, measured, place_checked, arc_checked};
ghost use Rattle.net.specs.Qualities.{Sound, DraftsHaveQualities};
ghost use Rattle.net.specs.Views.{drafted, Holds, SameSheet};
ghost use Rattle.net.specs.Drafts.{next_place, place_added, transition_added, weight_checks, with_number, arc_added, arc_in_added, arc_out_added, question_asked, question_told, cleared, started};

mod draft;
mod net;

pub use draft::Draft;
pub use net::{Layer, Look, Net, NetFault, Origin, Placed, Position, Question, Shape, Side, Told};

// The most places and transitions of a net, the numbers of a transition's row, the size of a sheet, and the largest weight.
pub const MOST_PLACES: usize = 64;

pub const MOST_TRANSITIONS: usize = 96;

pub const ROW_SIZE: usize = 128;

pub const SHEET_SIZE: usize = 12_352;

pub const MOST_WEIGHT: u32 = 65_535;

// What is known of the empty net.
const EMPTY: Shape = Shape {
    transitions: 0,
    standing: [false; MOST_PLACES],
    support: [false; MOST_PLACES],
    question: Question::Reach,
};

// The number of the question.
impl From<Question> for u32 {
    ghost from_gives = { λ q r. r ≡ question_number q };

    fn from(question: Question) -> u32 {
        question as u32
    }
}

// The question of a number: 0, as if nobody had told one, is kept as 1.
impl TryFrom<u32> for Question {
    type Error = NetFault;

    ghost try_from_gives = { λ n r. r ≡ question_asked n };

    fn try_from(number: u32) -> Result<Question, NetFault> {
        match number {
            0 | 1 => Ok(Question::Reach),
            2 => Ok(Question::Standstill),
            3 => Ok(Question::Both),
            _ => Err(NetFault::BadQuestion),
        }
    }
}

impl Position {
    // Before any command or step, and in a call without bytes.
    pub const START: Position = Position { byte: 0, count: 0 };

    // Where a refusal of this layer arises here.
    pub fn origin(self, layer: Layer) -> Origin
        ensures { result ≡ origin_at layer self.byte self.count }
    {
        Origin { layer, at: self }
    }
}

impl NetFault {
    // The number, layer and place of the refusal.
    pub fn told(self) -> Told
        ensures { result ≡ net_told self }
    {
        Told {
            number: self as u8,
            origin: Position::START.origin(Layer::Net),
        }
    }
}

// Says of a lower fault where it arose.
pub fn at_place<T, F>(r: Result<T, F>, origin: Origin) -> Result<T, Placed<F>>
    ensures { result ≡ placed r origin }
{
    r.map_err(|fault| Placed { fault, origin })
}

// Has the sheet the size of a net's sheet?
pub fn measure(sheet: &[u32]) -> Result<(), NetFault>
    ensures { result ≡ measured sheet.now }
{
    if sheet.len() == SHEET_SIZE {
        Ok(())
    } else {
        Err(NetFault::WrongSize)
    }
}

// Writes 0 in the marks and the first n rows, where nothing stands behind them. The sheet stays a slice, as it is lent: an array of it
// would need a case that never comes.
fn wipe(sheet: &mut [u32], n: usize)
    requires size { (length sheet.old ≡ 12352) × (n ≤ 96) }
    requires unused { (i : ℕ) → 64 + 128 * n ≤ i → slice_index sheet.old i ≡ 0 }
    ensures { sheet.new ≡ sheet_of (λ _. 0) [] }
{
    sheet[..MOST_PLACES + ROW_SIZE * n].fill(0);
}

// Clears a sheet of the right size, and leaves another as it is.
fn prepare(sheet: &mut [u32])
    ensures { sheet.new ≡ (started sheet.old).sheet }
{
    if measure(sheet).is_ok() {
        wipe(sheet, MOST_TRANSITIONS);
    }
}

// The lowest number that no place has, if a net may have one more.
fn next_place(standing: &[bool; MOST_PLACES]) -> Option<usize>
    ensures { result ≡ position not standing.now }
{
    standing.iter().position(|stands| !*stands)
}

// The flag of a place: false past the last one.
pub fn flag_at(flags: &[bool; MOST_PLACES], p: usize) -> bool
    ensures value { result ≡ slice_index_or flags.now p false }
    ensures within { result ≡ true → p < 64 }
{
    flags.get(p).copied().unwrap_or(false)
}

impl Side {
    // Where the weights of transition t on this side begin in the sheet.
    pub fn base(self, t: u8) -> usize
        ensures { result ≡ base self t }
    {
        match self {
            Side::Takes => 64 + 128 * usize::from(t),
            Side::Puts => 128 + 128 * usize::from(t),
        }
    }
}

impl Net<'_> {
    // Has the sheet the size of a net's sheet?
    pub fn check_size(&self) -> Result<(), NetFault>
        ensures { result ≡ measured (view self.now).sheet }
    {
        measure(self.sheet)
    }

    // May a call name this place?
    pub fn check_place(&self, p: usize) -> Result<(), NetFault>
        ensures value { result ≡ place_checked (view self.now) p }
        ensures within { result ≡ Ok tt → (length self.now.sheet.now ≡ 12352) × (p < 64) }
    {
        self.check_size()?;
        if !flag_at(&self.shape.standing, p) {
            return Err(NetFault::NoPlace);
        }
        Ok(())
    }

    // May a call name this transition and this place?
    pub fn check_arc(&self, t: usize, p: usize) -> Result<(), NetFault>
        ensures value { result ≡ arc_checked (view self.now) t p }
        ensures within { result ≡ Ok tt → (length self.now.sheet.now ≡ 12352) × (t < 96) × (t < self.now.shape.transitions) × (p < 64) }
    {
        self.check_size()?;
        if t >= self.shape.transitions {
            return Err(NetFault::NoTransition);
        }
        self.check_place(p)
    }

    // The start mark of a place.
    fn mark(&self, p: usize) -> Result<u32, NetFault>
        ensures { result ≡ looked (view self.now) (Mark p) }
    {
        self.check_place(p)?;
        Ok(self.sheet[p])
    }

    // The weight of a transition at a place, on one side. Side, transition and place are three values here and in the crates above, and no
    // struct, since looks and calls name them apart.
    fn weight(&self, side: Side, t: usize, p: usize) -> Result<u32, NetFault>
        ensures { result ≡ weighed (view self.now) side t p }
    {
        self.check_arc(t, p)?;
        // No `try_from`, since the cast loses nothing: a net has at most 96 transitions.
        Ok(self.sheet[side.base(t as u8) + p])
    }

    // Is the place in the support?
    fn supports(&self, p: usize) -> Result<u32, NetFault>
        ensures { result ≡ looked (view self.now) (Support p) }
    {
        self.check_place(p)?;
        Ok(u32::from(flag_at(&self.shape.support, p)))
    }

    // One number of the net. Yes is 1 and no is 0, since every look answers a number.
    pub fn look(&self, at: Look) -> Result<u32, NetFault>
        ensures { result ≡ looked (view self.now) at }
    {
        self.check_size()?;
        match at {
            // No `try_from`, since the cast loses nothing: a net has at most 96 transitions.
            Look::Transitions => Ok(self.shape.transitions as u32),
            Look::Question => Ok(self.shape.question.into()),
            Look::Stands(p) => Ok(u32::from(flag_at(&self.shape.standing, p))),
            Look::Support(p) => self.supports(p),
            Look::Mark(p) => self.mark(p),
            Look::Take(t, p) => self.weight(Side::Takes, t, p),
            Look::Put(t, p) => self.weight(Side::Puts, t, p),
        }
    }

    pub(crate) fn place(&mut self, mark: u32, flag: u32) -> Result<(), NetFault>
        ensures exact { Answered result (view self.new) (view self.old) (place_added (view self.old) mark flag) }
        ensures lent { SameSheet self.new self.old }
    {
        self.check_size()?;
        let p = next_place(&self.shape.standing).ok_or(NetFault::TooManyPlaces)?;
        let in_support = match flag {
            0 => false,
            1 => true,
            _ => return Err(NetFault::BadFlag),
        };
        self.sheet[p] = mark;
        self.shape.standing[p] = true;
        self.shape.support[p] = in_support;
        Ok(())
    }

    pub(crate) fn transition(&mut self) -> Result<(), NetFault>
        ensures exact { Answered result (view self.new) (view self.old) (transition_added (view self.old)) }
        ensures lent { SameSheet self.new self.old }
    {
        self.check_size()?;
        if self.shape.transitions >= MOST_TRANSITIONS {
            return Err(NetFault::TooManyTransitions);
        }
        self.shape.transitions += 1;
        Ok(())
    }

    // Writes the weight of an arc that is not there yet.
    fn write_arc(&mut self, at: usize, weight: u32) -> Result<(), NetFault>
        requires room { at < length self.old.sheet.now }
        requires row { at < 64 + 128 * self.old.shape.transitions }
        ensures exact { Answered result (view self.new) (view self.old) (judged (weight_checks (view self.old) at weight) (with_number (view self.old) at weight)) }
        ensures lent { SameSheet self.new self.old }
    {
        if weight == 0 || weight > MOST_WEIGHT {
            return Err(NetFault::BadWeight);
        }
        if self.sheet[at] != 0 {
            return Err(NetFault::ArcExists);
        }
        self.sheet[at] = weight;
        Ok(())
    }

    // Adds an arc on one side of a transition.
    pub(crate) fn arc(
        &mut self,
        side: Side,
        t: usize,
        p: usize,
        weight: u32,
    ) -> Result<(), NetFault>
        ensures exact { Answered result (view self.new) (view self.old) (arc_added (view self.old) side t p weight) }
        ensures lent { SameSheet self.new self.old }
    {
        self.check_arc(t, p)?;
        // No `try_from`, since the cast loses nothing: a net has at most 96 transitions.
        self.write_arc(side.base(t as u8) + p, weight)
    }

    pub(crate) fn ask(&mut self, question: u32) -> Result<(), NetFault>
        ensures exact { Answered result (view self.new) (view self.old) (question_told (view self.old) question) }
        ensures lent { SameSheet self.new self.old }
    {
        self.check_size()?;
        self.shape.question = Question::try_from(question)?;
        Ok(())
    }

    pub(crate) fn clear(&mut self) -> Result<(), NetFault>
        ensures exact { Answered result (view self.new) (view self.old) (cleared (view self.old)) }
        ensures lent { SameSheet self.new self.old }
    {
        self.check_size()?;
        wipe(self.sheet, self.shape.transitions);
        self.shape = EMPTY;
        Ok(())
    }
}

impl<'a> Draft<'a> {
    // A draft of the empty net. A sheet of the right size is cleared; one of another size is left untouched, and the calls
    // of the draft refuse it.
    pub fn start(sheet: &'a mut [u32]) -> Draft<'a>
        ensures drafted { drafted result ≡ started sheet.old }
        ensures lent { Holds sheet.entry result.net }
        ensures qualities { DraftsHaveQualities }
    {
        prepare(sheet);
        Draft {
            net: Net {
                sheet,
                shape: EMPTY,
            },
        }
    }

    // Ends the draft, and gives its net.
    pub fn finish(self) -> Net<'a>
        ensures net { view result ≡ drafted self.entry }
        ensures qualities { ∥ Sound (view result) ∥₁ }
        ensures lent { SameSheet result self.entry.net }
    {
        let Draft { net } = self;
        net
    }

    // Adds a place with its start mark; the flag 1 puts it into the support. The flag is a number, since others than 0 and 1 are refused.
    pub fn place(&mut self, mark: u32, flag: u32) -> Result<(), NetFault>
        ensures exact { Answered result (drafted self.new) (drafted self.old) (place_added (drafted self.old) mark flag) }
        ensures lent { SameSheet self.new.net self.old.net }
    {
        self.net.place(mark, flag)
    }

    // Adds a transition without arcs.
    pub fn transition(&mut self) -> Result<(), NetFault>
        ensures exact { Answered result (drafted self.new) (drafted self.old) (transition_added (drafted self.old)) }
        ensures lent { SameSheet self.new.net self.old.net }
    {
        self.net.transition()
    }

    // Adds an arc from a place to a transition. This call and the next are two, as the two kinds of arcs are; what they do is one function.
    pub fn arc_in(&mut self, t: usize, p: usize, weight: u32) -> Result<(), NetFault>
        ensures exact { Answered result (drafted self.new) (drafted self.old) (arc_in_added (drafted self.old) t p weight) }
        ensures lent { SameSheet self.new.net self.old.net }
    {
        self.net.arc(Side::Takes, t, p, weight)
    }

    // Adds an arc from a transition to a place.
    pub fn arc_out(&mut self, t: usize, p: usize, weight: u32) -> Result<(), NetFault>
        ensures exact { Answered result (drafted self.new) (drafted self.old) (arc_out_added (drafted self.old) t p weight) }
        ensures lent { SameSheet self.new.net self.old.net }
    {
        self.net.arc(Side::Puts, t, p, weight)
    }

    // Tells the question by its number, since one that no question has is refused.
    pub fn question(&mut self, number: u32) -> Result<(), NetFault>
        ensures exact { Answered result (drafted self.new) (drafted self.old) (question_told (drafted self.old) number) }
        ensures lent { SameSheet self.new.net self.old.net }
    {
        self.net.ask(number)
    }

    // Makes the draft that of the empty net again.
    pub fn clear(&mut self) -> Result<(), NetFault>
        ensures exact { Answered result (drafted self.new) (drafted self.old) (cleared (drafted self.old)) }
        ensures lent { SameSheet self.new.net self.old.net }
    {
        self.net.clear()
    }
}
