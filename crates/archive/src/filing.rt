// Which PDUs an archive may hold, under which key, and whether a body agrees with its entry.
ghost use Rattle.std.specs.Prelude.{◌≡◌};
ghost use Rattle.archive.specs.Filing.{agrees};
ghost use Rattle.archive.specs.Inner.{filing_under, agreement_is};

use crate::contents::{Entry, Key};
use grammar::site::network_of;
use walk::Head;

// The key under which an accepted PDU is filed; none if no archive entry may hold it: only an accepting INTERROGATE ACK whose affected range
// type is 1 has one.
pub(crate) fn filing_of(home: u32, head: Head) -> Option<Key>
    ensures { result ≡ filing_under home head }
{
    let (user, part) = judging::judge(head)?;
    Some(Key {
        network: network_of(home, user),
        ssi: user.ssi,
        part,
    })
}

// Whether an accepted PDU is filed under a key.
fn is_filed_under(home: u32, head: Head, key: Key) -> bool
    ensures { result ≡ agrees (filing_under home head) key }
{
    filing_of(home, head) == Some(key)
}

// A legal PDU that is filed under its entry's key agrees with the entry, whatever the day; another is at fault, with the bit place where it is
// refused.
pub(crate) fn body_agreement(home: u32, entry: Entry, body: &[u8]) -> Result<(), Option<usize>>
    ensures { result ≡ agreement_is home (record { entry = entry; body = body.now }) }
{
    let head = walk::walk(body, entry.bits).map_err(|refusal| refusal.place)?;
    if is_filed_under(home, head, entry.key) {
        return Ok(());
    }
    Err(None)
}
