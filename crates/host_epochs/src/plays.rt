//! What each kind of step tells the seat that makes it.
ghost use Rattle.host_epochs.specs.declared.told.Stop.{Stop};
ghost use Rattle.host_epochs.specs.Terms.{Terms};
ghost use Rattle.host_epochs.specs.Plays.{Draft, came, entered, finished, freed, looked, noted, raised, stopped, tried, warned};

use crate::views::View;
use atomic_table::{Join, Play, Split};
use host_shard::Content;
use std::marker::{Brand, PhantomData};

/// Of which table a step is, of which work, and of which stop. A step cannot read the table's key, so its caller picks them.
pub(crate) trait Told {
    ghost terms: { Terms };

    ghost draft: { Draft };

    ghost stop: { Stop };
}

impl Told for Brand {
    ghost use Rattle.host_epochs.specs.Plays.{no_terms, no_draft, no_stop};

    ghost terms = { no_terms };

    ghost draft = { no_draft };

    ghost stop = { no_stop };
}

/// A try of a place.
pub(crate) struct Try<N> {
    of: PhantomData<N>,
}

impl<N: Told> Play<Content, View> for Try<N> {
    ghost then = { tried N.terms };
}

/// An entry noted.
pub(crate) struct Note<N> {
    of: PhantomData<N>,
}

impl<N: Told> Play<Content, View> for Note<N> {
    ghost then = { noted N.terms N.draft };
}

/// A word freed.
pub(crate) struct Free;

impl Play<Content, View> for Free {
    ghost then = { freed };
}

/// A look at how far a worker is.
pub(crate) struct Look<N> {
    of: PhantomData<N>,
}

impl<N: Told> Play<Content, View> for Look<N> {
    ghost then = { looked N.terms };
}

/// A worker is through with its epoch.
pub(crate) struct Finish;

impl Play<Content, View> for Finish {
    ghost then = { finished };
}

/// One epoch more may be entered.
pub(crate) struct Raise;

impl Play<Content, View> for Raise {
    ghost then = { raised };
}

/// An epoch entered, if there is one.
pub(crate) struct Go<N> {
    of: PhantomData<N>,
}

impl<N: Told> Play<Content, View> for Go<N> {
    ghost then = { entered N.terms };
}

/// A worker stops.
pub(crate) struct Halt<N> {
    of: PhantomData<N>,
}

impl<N: Told> Play<Content, View> for Halt<N> {
    ghost then = { stopped N.stop };
}

/// A look whether a worker stopped.
pub(crate) struct Hear;

impl Play<Content, View> for Hear {
    ghost then = { warned };
}

/// A seat that comes to gather the workers' rows.
pub(crate) struct Come<N> {
    of: PhantomData<N>,
}

impl<N: Told> Play<Content, View> for Come<N> {
    ghost then = { came N.terms };
}

/// A worker's seat is dealt.
pub(crate) struct Deal;

impl Split<View> for Deal {
    ghost use Rattle.host_epochs.specs.Plays.{kept_row, dealt_row};

    ghost left = { kept_row };

    ghost right = { dealt_row };
}

/// A worker's seat is gathered.
pub(crate) struct Gather;

impl Join<View> for Gather {
    ghost use Rattle.host_epochs.specs.declared.views.View.TheVariants.{Spent};
    ghost use Rattle.host_epochs.specs.Plays.{gathered};

    ghost both = { gathered };

    ghost spent = { Spent };
}
