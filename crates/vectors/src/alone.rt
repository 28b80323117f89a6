//! Steps of a session that are taken one by one, each by the session's own call for it.

ghost use Rattle.std.specs.Prelude.{◌≡◌};

use std::alloc::Global;
use vector_calls::vector_sides::{Acting, Logged};
use witcall::{Answer, Held, Package, Session, Step};

/// A session of the rows.
pub type Rows<'a> = Session<'a, Logged, Logged, Acting>;

/// What the step of this number placed, if anything.
fn held_by(answers: &[Answer], number: usize) -> Option<Held> {
    match answers.get(number) {
        Some(Answer::Placed(Ok(held))) => Some(*held),
        _ => None,
    }
}

/// Reads what a step placed.
fn read(
    alloc: Global,
    package: &Package,
    session: &Rows<'_>,
    held: Option<Held>,
) -> anyhow::Result<Answer>
    requires { session.now.package.now ≡ «package».now }
{
    let Some(held) = held else {
        return Ok(Answer::Missing);
    };
    if !package.is_type(held.ty) {
        return Err(anyhow::anyhow!("no type"));
    }
    Ok(Answer::Read(session.read(alloc, &held)))
}

/// Takes a step, which comes behind these answers.
fn take(
    alloc: Global,
    package: &Package,
    session: &mut Rows<'_>,
    behind: (&Step, &[Answer]),
) -> anyhow::Result<Answer>
    requires { session.old.package.now ≡ «package».now }
    ensures { session.new.package.now ≡ session.old.package.now }
{
    let (step, answers) = behind;
    match step {
        Step::Call(func, arguments) => {
            if !package.is_function(*func) || !package.takes(*func, arguments.as_slice()) {
                return Err(anyhow::anyhow!("no arguments"));
            }
            Ok(Answer::Called(session.call(alloc, *func, arguments.as_slice())))
        }
        Step::Place(ty, value) => {
            if !package.is_type(*ty) || !package.is_of(*ty, value) {
                return Err(anyhow::anyhow!("no value of its type"));
            }
            Ok(Answer::Placed(session.place(*ty, value)))
        }
        Step::Read(number) => read(alloc, package, session, held_by(answers, *number)),
        Step::Release(at, size) => Ok(Answer::Released(session.release(*at, *size))),
    }
}

/// Takes these steps, and answers what each answered.
pub fn taken_alone(
    alloc: Global,
    package: &Package,
    session: &mut Rows<'_>,
    steps: &[Step],
) -> anyhow::Result<Vec<Answer>>
    requires { session.old.package.now ≡ «package».now }
{
    let mut answers = Vec::new(alloc);
    for step in steps {
        let answer = take(alloc, package, session, (step, answers.as_slice()))?;
        answers.push(answer)?;
    }
    Ok(answers)
}
