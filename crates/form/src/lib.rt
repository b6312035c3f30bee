// The form reader: username and password of a login body into two lent buffers. The body is read once, and all four names are
// judged before either buffer is written.
#![tactic(auto)]

ghost use Rattle.std.specs.Prelude.{◌≡◌};
ghost use Rattle.protocol.specs.Calls.{form_read, form_of};
ghost use Rattle.protocol.specs.Refusals.{refusal_number};
ghost use Rattle.form.specs.Refused.{refused_form};

use protocol::{Form, Refusal};
use request::{PASSWORD, SHORT};

// The longest body.
const BODY: usize = 1024;

fn refused(refusal: Refusal) -> Form
    ensures { result ≡ refused_form (refusal_number refusal) }
{
    Form {
        refusal: refusal.into(),
        username_length: 0,
        password_length: 0,
    }
}

#[tactic(auto, using(protocol::proofs::Searches::empty), unfolding(protocol::specs::Calls::form_of, protocol::specs::Calls::form_refusal))]
pub fn read_form(body: &[u8], username: &mut [u8], password: &mut [u8]) -> Form
    ensures { form_read result username.new password.new ≡ form_of body.now username.old password.old }
{
    if username.len() < SHORT {
        return refused(Refusal::Sizes);
    }
    if password.len() < PASSWORD {
        return refused(Refusal::Sizes);
    }
    if BODY < body.len() {
        return refused(Refusal::TooLong);
    }
    let Some(posted) = request::login_body(body) else {
        return refused(Refusal::Malformed);
    };
    if posted.username.spelling.is_absent() | posted.password.spelling.is_absent() {
        return refused(Refusal::Incomplete);
    }
    let username_length = posted.username.read(username);
    let password_length = posted.password.read(password);
    Form {
        refusal: 0,
        username_length,
        password_length,
    }
}
