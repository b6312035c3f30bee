// The types of the interface: what a request is, what a call answers, and what reading a form, asking for a visit
// or checking a register gives. And what a step decides before it acts, and dates, of which meaning and code speak alike.
#![tactic(auto)]

ghost use Rattle.std.specs.Prelude.{◌≡◌, ◌≤◌};
ghost use Rattle.protocol.specs.Bytes.{if};
ghost use Rattle.protocol.specs.Table.{last_time};
ghost use Rattle.protocol.specs.Refusals.{refusal_number, number_of_result};
ghost use Rattle.protocol.specs.declared.Method.TheVariants as method;

// The latest time, 2^40 seconds.
pub const LAST_TIME: u64 = 1099511627776;

// A time in seconds, at most the latest.
#[derive(Clone, Copy)]
pub struct Time {
    pub seconds: u64,
    pub ghost in_range: { seconds ≤ last_time },
}

// Why a call is refused. Each has the number by which a host is told, and the calls judge them in that order.
#[derive(Clone, Copy, PartialEq, Eq)]
pub enum Refusal {
    // the table is not 9 to 128 whole blocks
    TableShape = 1,
    // a block's check is wrong, or a rule of the table is broken
    Table = 2,
    // the register, or the entry that a block is to be made of, breaks a rule
    Register = 3,
    // a lent buffer or the random input has the wrong size
    Sizes = 4,
    // the target or the body is too long
    TooLong = 5,
    // the time is too late
    Time = 6,
    // the form cannot be read
    Malformed = 7,
    // username or password is absent
    Incomplete = 8,
    // the session has no visit of that number
    NoVisit = 9,
}

impl From<Refusal> for u32 {
    ghost from_gives = { λ r n. n ≡ refusal_number r };

    fn from(r: Refusal) -> u32 {
        r as u32
    }
}

// The number of a call that was refused, or 0.
pub fn number_of(done: Result<(), Refusal>) -> u32
    ensures { result ≡ number_of_result done }
{
    match done {
        Ok(()) => 0,
        Err(refusal) => refusal.into(),
    }
}

#[derive(Clone, Copy)]
pub enum Method {
    Get,
    Post,
}

// By whether it is a POST, as a host tells it.
impl From<bool> for Method {
    ghost from_gives = { λ post m. m ≡ if post method.Post method.Get };

    fn from(post: bool) -> Method {
        if post { Method::Post } else { Method::Get }
    }
}

// The three validators: /cas/validate, /cas/serviceValidate, /cas/proxyValidate.
#[derive(Clone, Copy)]
pub enum Validator {
    Plain,
    Service,
    Proxy,
}

// The path of a request, by the names of document 01.
// Here and below a case of its own stands for none: the meaning (`path_named`, `way_of`, `standing_of`, `refused_outcome`) shares these enums, and may not change.
#[derive(Clone, Copy)]
pub enum Path {
    Login,
    Logout,
    Validate(Validator),
    Proxy,
    Unknown,
}

// What comes with a request's target and body: the panel register, the cookie, the random input and the host's verdict on a password.
#[derive(Clone, Copy)]
pub struct Brings<'a> {
    pub register: &'a [u8],
    pub cookie: &'a [u8],
    pub random: &'a [u8; 48],
    pub verdict: bool,
}

// What login by GET comes to.
#[derive(Clone, Copy)]
pub enum Way {
    // the service is not in the register
    Unknown,
    // a live session, in its slot, and no renew
    SignedOn(usize),
    // a gateway that counts
    Away,
    Form,
}

// What becomes of credentials.
#[derive(Clone, Copy)]
pub enum Admission {
    // the service is not in the register
    Unknown,
    // the form again
    Again,
    Accepted,
}

// Whose session the cookie names: nobody's, the user's own or another's, in its slot.
#[derive(Clone, Copy)]
pub enum Standing {
    Absent,
    Kept(usize),
    Other(usize),
}

// What is to be said of a live ticket. Of an accepted one: its session, where its proxies start, 0 for none, and its mark.
// That 0, and a mark that is a number, are those of `ruling_of`, which may not change.
#[derive(Clone, Copy)]
pub enum Ruling {
    NoTicket,
    NoService,
    Accepted { session: u16, parent: u16, mark: u8 },
}

// What was answered, each with its own data: a page and its status, a redirect and whether it carries a ticket,
// the text `yes` or `no`, XML and whether it tells of success, a callback and the serial of its waiting grant.
// A refused call answers nothing.
#[derive(Clone, Copy)]
pub enum Answer {
    Nothing,
    Page(u32),
    Redirect(bool),
    Text(bool),
    Xml(bool),
    Callback(u32),
}

// The result of answer and of finish. Here and in the three results below `refusal` is a number and no `Refusal`: the meaning's
// `refused_outcome`, `form_refused`, `visit_refused` and `fault`, which may not change, lay the number down; it is 0 where nothing is refused.
// A status and a callback's serial are numbers, 0 for none: so in the meaning's `status_of`, `serial_of` and `ErrorPage`, which may not change.
#[derive(Clone, Copy)]
pub struct Outcome {
    pub refusal: u32,
    pub answer: Answer,
    pub status: u32,
    pub length: usize,
    pub cookie_length: usize,
    pub cookie_cleared: bool,
    pub callback_serial: u32,
}

// The result of the form reader.
#[derive(Clone, Copy)]
pub struct Form {
    pub refusal: u32,
    pub username_length: usize,
    pub password_length: usize,
}

// The result of a question for a visit.
#[derive(Clone, Copy)]
pub struct Visit {
    pub refusal: u32,
    pub length: usize,
}

// The result of a register's check: the first block at fault, from 0; 0 where none is.
#[derive(Clone, Copy)]
pub struct Fault {
    pub refusal: u32,
    pub block: usize,
}

// A day by its place in the year, from 0.
#[derive(Clone, Copy)]
pub struct YearDay {
    pub year: u64,
    pub day: u64,
}

// A day by its month and its place in the month, both from 1.
#[derive(Clone, Copy)]
pub struct Date {
    pub year: u64,
    pub month: u64,
    pub day: u64,
}
