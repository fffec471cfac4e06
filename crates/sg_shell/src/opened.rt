//! Views that are open under a name.
ghost use Rattle.std.specs.Prelude.{◌≡◌, bytes_eq, Contains};
ghost use Rattle.std.specs.List.{position_from};
ghost use Rattle.index_core.specs.Records.{open_views};
ghost use Rattle.index_core.specs.LegalHistories.{IsLegal};
ghost use Rattle.index_core.specs.Calls.{after_end};
ghost use Rattle.index_shared.specs.OwnViews.{view_in};
ghost use Rattle.index_single.specs.declared.caller.TheConstants.{CALLER};

use crate::viewing::end;
use index_single::SingleIndex;
use sg_base::Text;
use sg_view::View;
use std::marker::Model;
use std::sync::Wait;

/// A view under its name. It can't be dropped.
pub(crate) struct Opened {
    pub name: Text,
    pub view: View,
}

impl Model for Opened {
    ghost use Rattle.sg_shell.specs.Working.{NamedBuilt};

    ghost Value = { NamedBuilt };

    ghost view = { λ o. record { name = o.name; view = o.view } };
}

fn place_of(opened: &[Opened], name: &str) -> Option<usize>
    ensures { result ≡ position_from (λ o. bytes_eq o.name name.now) 0 opened.now }
{
    opened.iter().position(|o| o.name.as_str() == name)
}

/// The place of the view of that name, if one is open.
pub(crate) fn position_of(opened: &Vec<Opened>, name: &Text) -> Option<usize>
    ensures { result ≡ position_from (λ o. bytes_eq o.name name.now) 0 opened.now.items }
{
    place_of(opened.as_slice(), name.as_str())
}

/// Ends the view. Takes no memory.
pub(crate) fn end_opened(index: &mut SingleIndex, wait: &impl Wait, opened: Opened)
    requires { Contains (open_views index.old) (view_in CALLER opened.view) }
    ensures ended { index.new ≡ after_end CALLER opened.view.number index.old }
    ensures legal { IsLegal index.new }
{
    let Opened { name: _, view } = opened;
    end(index, wait, view);
}
