//! Hellos, read.

ghost use Rattle.std.specs.Prelude.{◌≡◌, ◌<◌, ◌^◌, IfOk, Ok, length};
ghost use Rattle.nr_base.specs.Clauses.{Gives, GivesWhole};
ghost use Rattle.nr_message.specs.declared.message.Hello.{Hello as HelloView};
ghost use Rattle.nr_message.specs.Faults.{is_free};
ghost use Rattle.nr_message.specs.Reading.{bytes_at, hello_at, hello_of};
ghost use Rattle.nr_message.specs.Text.{hello};

use crate::fault::MessageFault;
use crate::message::Hello;
use crate::read::part::read_name;
use nr_base::Cur;
use std::alloc::Global;

#[tactic(auto, unfolding(nr_base::specs::Reader::bind, nr_base::specs::Reader::pure, nr_base::specs::Reader::refuse, nr_base::specs::Reader::choose, nr_base::specs::Reader::from, nr_base::specs::Reader::with_fault))]
fn read_digest(cur: &mut Cur) -> Result<[u8; 20], MessageFault>
    ensures { Gives is_free result cur.new (bytes_at 20 cur.old) }
{
    let mut digest = [0; 20];
    digest.copy_from_slice(cur.take(20)?);
    Ok(digest)
}

#[tactic(auto, unfolding(crate::specs::Reading::hello_at, nr_base::specs::Reader::whole, nr_base::specs::Reader::bind, nr_base::specs::Reader::pure, nr_base::specs::Reader::refuse, nr_base::specs::Reader::choose, nr_base::specs::Reader::from, nr_base::specs::Reader::with_fault))]
fn read_whole(alloc: Global, body: &[u8]) -> Result<Hello, MessageFault>
    requires { length body.now < 2 ^ 32 }
    ensures { GivesWhole is_free result (hello_of body.now) }
{
    let mut cur = Cur::new(body);
    let version = cur.u16()?;
    let digest = read_digest(&mut cur)?;
    let service = read_name(alloc, &mut cur)?;
    if !cur.is_empty() {
        return Err(MessageFault::Trailing(cur.at()));
    }
    Ok(Hello {
        version,
        digest,
        service,
    })
}

/// The hello that a body spells, of any version.
///
/// # Errors
///
/// The first fault of the bytes from left to right: `Short`, `NameBad`, `Trailing`. `NoMemory` for
/// want of memory.
pub fn read_hello(alloc: Global, body: &[u8]) -> Result<Hello, MessageFault>
    requires { length body.now < 2 ^ 32 }
    ensures found { IfOk result (λ m. hello m body.now) }
    ensures only { (m : HelloView) → hello m body.now → GivesWhole is_free result (Ok m) }
    ensures exact { GivesWhole is_free result (hello_of body.now) }
{
    read_whole(alloc, body)
}
