//! What a run knows besides devices and journal, and hears of acts: the host's pending writes, the sessions, and the paths.

ghost use Rattle.std.specs.Prelude.{◌≡◌, Option, refl};
ghost use Rattle.dr_config.specs.Table.{ConfigTable};
ghost use Rattle.dr_volume.specs.View.{Rest};
ghost use Rattle.dr_moves.specs.Beside.{rest_after, table_after, heard, Takes};
ghost use Rattle.dr_moves.specs.declared.beside.News.{News};

use dr_config::Config;
use dr_ids::{Lss, SessionId, WriteId};

/// What becomes of what lies beside devices and journal.
#[derive(Clone, Copy)]
pub enum News {
    /// This write of the host is pending no more.
    Settled(WriteId),
    /// This pending write of the host has landed in a stop.
    Landed(WriteId),
    /// The next attempt of this session has begun.
    Begun(SessionId),
    /// The path from one logical subsystem to another is removed.
    Removed(Lss, Lss),
    /// Nothing: all is as it was.
    Unchanged,
}

/// What lies beside, and hears news.
///
/// `takes` says which news it can hear, and `after` what it is behind them. `rest` and `table` are what it shows of a run's rest and
/// of the configuration, whatever the others show: they change as the machine's do.
pub trait Beside {
    ghost takes: { Self → News → Type 0 };

    ghost after: { News → Self → Self };

    ghost rest: { Self → Rest → Rest };

    ghost table: { Self → ConfigTable → ConfigTable };

    /// Hears news.
    fn hear(&mut self, news: &News)
        requires takes { takes self.old news.now }
        ensures heard { self.new ≡ after news.now self.old };

    ghost shows_rest: { (n : News) (x : Self) (r : Rest) → takes x n → rest (after n x) r ≡ rest_after n (rest x r) };

    ghost shows_table: { (n : News) (x : Self) (c : ConfigTable) → takes x n → table (after n x) c ≡ table_after n (table x c) };
}

/// Nothing lies beside: it hears nothing that would change it.
#[derive(Clone, Copy)]
pub struct Nothing;

impl Beside for Nothing {
    ghost use Rattle.dr_moves.specs.Beside.{is_unchanged, rest-unchanged, table-unchanged};

    ghost takes = { λ x n. is_unchanged n };

    ghost after = { λ n x. x };

    ghost rest = { λ x r. r };

    ghost table = { λ x c. c };

    fn hear(&mut self, news: &News) {}

    ghost shows_rest = { λ n x r is. rest-unchanged n r is };

    ghost shows_table = { λ n x c is. table-unchanged n c is };
}

impl Beside for Config {
    ghost use Rattle.dr_config.specs.Table.{ConfigTable};
    ghost use Rattle.dr_moves.specs.Beside.{is_path, table_after, rest-of_paths};

    ghost takes = { λ x n. is_path n };

    ghost after = { table_after };

    ghost rest = { λ x r. r };

    ghost table = { λ x c. x };

    fn hear(&mut self, news: &News) {
        if let News::Removed(l, m) = news {
            self.remove_path(*l, *m);
        }
    }

    ghost shows_rest = { λ n x r is. rest-of_paths n r is };

    ghost shows_table = { λ n x c is. refl };
}

/// News are heard, where there are any.
pub(crate) fn hear<B: Beside>(beside: &mut B, news: Option<News>)
    requires takes { Takes (B.takes beside.old) news }
    ensures heard { beside.new ≡ heard B.after news beside.old }
{
    if let Some(news) = news {
        beside.hear(&news);
    }
}
