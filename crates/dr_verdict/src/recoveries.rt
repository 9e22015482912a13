//! What the recoveries of one script may come to.

ghost use Rattle.std.specs.Prelude.{◌≡◌};
ghost use Rattle.std.specs.List.{list_all, list_any};
ghost use Rattle.dr_verdict.specs.Recoveries.{is_stop_or, has_found, agree_on, agreed_group};

/// What a recovery came to.
#[derive(Clone, Copy)]
pub enum Recovery {
    /// A server stopped in it.
    Stopped,
    /// It found this group.
    Found { group: u8 },
    /// It answered anything else, or nothing.
    Other,
}

fn is_stop_or(recovery: &Recovery, group: u8) -> bool
    ensures { result ≡ is_stop_or group recovery.now }
{
    match *recovery {
        Recovery::Stopped => true,
        Recovery::Found { group: found } => found == group,
        Recovery::Other => false,
    }
}

fn has_found(recovery: &Recovery, group: u8) -> bool
    ensures { result ≡ has_found group recovery.now }
{
    match *recovery {
        Recovery::Found { group: found } => found == group,
        Recovery::Stopped | Recovery::Other => false,
    }
}

/// Each recovery was stopped or found this group.
fn all_stopped_or(recoveries: &[Recovery], group: u8) -> bool
    ensures { result ≡ list_all (is_stop_or group) recoveries.now }
{
    recoveries
        .iter()
        .all(|recovery| is_stop_or(recovery, group))
}

/// A recovery found this group.
fn any_found(recoveries: &[Recovery], group: u8) -> bool
    ensures { result ≡ list_any (has_found group) recoveries.now }
{
    recoveries.iter().any(|recovery| has_found(recovery, group))
}

/// Each recovery was stopped or found this group, and one found it.
fn agree_on(recoveries: &[Recovery], group: u8) -> bool
    ensures { result ≡ agree_on recoveries.now group }
{
    all_stopped_or(recoveries, group) && any_found(recoveries, group)
}

/// The group, 1 or 2, that one of these recoveries found and each of the others found or was stopped.
pub fn agreed_group(recoveries: &[Recovery]) -> Option<u8>
    ensures { result ≡ agreed_group recoveries.now }
{
    if agree_on(recoveries, 1) {
        Some(1)
    } else if agree_on(recoveries, 2) {
        Some(2)
    } else {
        None
    }
}
