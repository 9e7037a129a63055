//! Puts the entries of new files behind those of older ones.

ghost use Rattle.std.specs.Prelude.{OnOk, OnErr};
ghost use Rattle.reflect_growth.specs.Growth.{Appended, SameItems, Fronts};

use reflect_tables::Tables;
use std::alloc::AllocError;

/// Puts each list of entries behind the others. A refusal may leave some of the lists longer.
fn append_each(tables: &mut Tables, mut more: Tables) -> Result<(), AllocError>
    ensures appended { OnOk result (Appended tables.old more tables.new) }
    ensures fronts { Fronts tables.old tables.new }
{
    tables.messages.append(&mut more.messages)?;
    tables.enums.append(&mut more.enums)?;
    tables.extensions.append(&mut more.extensions)?;
    tables.services.append(&mut more.services)?;
    tables.files.append(&mut more.files)?;
    Ok(())
}

/// Puts the entries behind the others. A refusal leaves all lists.
pub fn append(tables: &mut Tables, more: Tables) -> Result<(), AllocError>
    ensures appended { OnOk result (Appended tables.old more tables.new) }
    ensures same { OnErr result (SameItems tables.old tables.new) }
{
    let files = tables.files.len();
    let messages = tables.messages.len();
    let enums = tables.enums.len();
    let extensions = tables.extensions.len();
    let services = tables.services.len();
    let outcome = append_each(tables, more);
    if outcome.is_err() {
        tables.files.truncate(files);
        tables.messages.truncate(messages);
        tables.enums.truncate(enums);
        tables.extensions.truncate(extensions);
        tables.services.truncate(services);
    }
    outcome
}
