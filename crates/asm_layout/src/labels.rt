//! The addresses of labels.
ghost use Rattle.std.specs.Prelude.{◌≡◌, ◌≤◌, ◌^◌, ◌++◌, [], None, length, OnOk, IfOk, IfErr};
ghost use Rattle.kmp_base.specs.Names.{named};
ghost use Rattle.asm_layout.specs.Places.{address_at};
ghost use Rattle.asm_layout.specs.Labels.{Addresses, HoldsLabels, label_at, labels_from};
ghost use Rattle.asm_layout.specs.Passes.{FailsBy, at_line, first_fault, twice_fault, twice_test};

use crate::MOST_STATEMENTS;
use crate::place::Place;
use asm_parse::{AsmCause, AsmFault, Body, Statement};
use std::alloc::Global;
use std::collections::BTreeMap;

/// The byte address of each label.
pub type Labels<'a> = BTreeMap<&'a [u8], u64>;

/// The address of a label, where it is one.
pub fn address_of(labels: &Labels<'_>, name: &[u8]) -> Option<u64>
    ensures address { (known : Addresses) → HoldsLabels labels.now known → result ≡ named known name.now }
{
    labels.get(name).copied()
}

/// Gives a statement's label its address.
fn add_label<'a>(
    labels: &mut Labels<'a>,
    place: Place,
    statement: &Statement<'a>,
) -> Result<(), AsmFault>
    ensures added { OnOk result ((known : Addresses) → HoldsLabels labels.old known →
        (twice_fault known statement.now.body ≡ None)
        × HoldsLabels labels.new (known ++ label_at (address_at place) statement.now.body)) }
    ensures failed { IfErr result (λ error. (known : Addresses) → HoldsLabels labels.old known →
        FailsBy (at_line statement.now.line (twice_fault known statement.now.body)) error) }
{
    match &statement.body {
        Body::Label(name) => match labels.insert(name.as_slice(), place.address())? {
            None => Ok(()),
            Some(_) => Err(AsmFault::At(AsmCause::LabelTwice, statement.line)),
        },
        _ => Ok(()),
    }
}

/// The labels of a source whose code ends at `end`.
pub fn labels_of<'a>(
    alloc: Global,
    statements: &[Statement<'a>],
    end: u64,
) -> Result<Labels<'a>, AsmFault>
    requires few { length statements.now ≤ MOST_STATEMENTS }
    requires end { end ≤ 2 ^ 32 }
    ensures none_twice { OnOk result (first_fault (twice_test end) [] statements.now ≡ None) }
    ensures labels { IfOk result (λ labels. HoldsLabels labels (labels_from end [] statements.now)) }
    ensures failed { IfErr result (λ error. FailsBy (first_fault (twice_test end) [] statements.now) error) }
{
    let mut labels = BTreeMap::new(alloc);
    let mut place = Place::start(end);
    for statement in statements {
        add_label(&mut labels, place, statement)?;
        place = place.moved(&statement.body);
    }
    Ok(labels)
}
