//! Data breakpoints: values that are looked at behind each scan.

use crate::debuggee::Debuggee;
use crate::variables::group_of;
use sfc_base::ids::ProgId;
use sfc_page::append::append;
use sfc_replay::sfc_script::point::find_action;
use sfc_replies::arguments::{items_argument, number_argument, text_argument, text_member};
use sfc_replies::body::Body;
use sfc_replies::reply::Reply;
use sfc_replies::row::Row;
use sfc_replies::rows::Rows;
use sfc_session::session::Session;
use sfc_showing::shown::{Group, append_script_name, variable_in};
use sfc_showing::watches::Watched;
use sfc_wire::dap_request::Request;
use std::alloc::{AllocError, Global};

// The X of a step or the Q of an action of a program instance, by its name.
fn element_value(session: &Session, program: ProgId, name: &str) -> Option<Watched> {
    let (element, part) = name.split_once('.')?;
    if part.eq_ignore_ascii_case("X") {
        let step = session.plant().find_step(program, element.as_bytes())?;
        return Some(Watched::Active(program, step));
    }
    if part.eq_ignore_ascii_case("Q") {
        let resource = session.debugger().resource();
        let action = find_action(resource, program, element.as_bytes())?;
        return Some(Watched::Control(program, action));
    }
    None
}

/// What a number that a client keeps stands for: a variable as scripts name it, or a program instance, a colon, and `Step.X` or `Action.Q`.
pub fn watched_of(session: &Session, id: &str) -> Option<Watched> {
    match id.split_once(':') {
        Some((program, name)) => {
            let program = session.plant().find_instance(program.as_bytes())?;
            element_value(session, program, name)
        }
        None => Some(Watched::Variable(session.plant().find_variable(id.as_bytes())?)),
    }
}

// What stands for a thing of a group that is watched; None where it isn't watched.
fn id_of(
    alloc: Global,
    session: &Session,
    place: (ProgId, Group),
    name: &str,
) -> Result<Option<Vec<u8>>, AllocError> {
    let (program, group) = place;
    let mut id = Vec::new(alloc);
    if let Some(variable) = variable_in(session, program, group, name.as_bytes()) {
        append_script_name(&mut id, session, variable)?;
        return Ok(Some(id));
    }
    if element_value(session, program, name).is_none() {
        return Ok(None);
    }
    append(&mut id, session.plant().instance_name(program))?;
    append(&mut id, b":")?;
    append(&mut id, name.as_bytes())?;
    Ok(Some(id))
}

/// Whether a thing can be watched, and what stands for it then. The one error is that memory was refused; so it is of the call below.
pub fn data_info(
    alloc: Global,
    debuggee: &Debuggee,
    request: Request<'_>,
) -> Result<Reply, AllocError> {
    let session = debuggee.prompt.session();
    let name = text_argument(request, "name").unwrap_or("");
    let number = number_argument(request, "variablesReference").unwrap_or(0);
    let id = match group_of(number) {
        Some(place) => id_of(alloc, session, place, name)?,
        None => match watched_of(session, name) {
            Some(_) => Some(Vec::from_slice(alloc, name.as_bytes())?),
            None => None,
        },
    };
    let body = match &id {
        Some(id) => Body::new(alloc)
            .bytes("dataId", id)?
            .text("description", name)?
            .rows("accessTypes", Rows::new(alloc).text("write")?)?
            .flag("canPersist", true)?,
        None => Body::new(alloc).null("dataId")?.text(
            "description",
            "variables, Step.X and Action.Q are watched",
        )?,
    };
    Ok(Reply::done(alloc, body))
}

/// Watches these things, in place of those before.
pub fn set_data(
    alloc: Global,
    debuggee: &mut Debuggee,
    request: Request<'_>,
) -> Result<Reply, AllocError> {
    let mut watched = Vec::new(alloc);
    let mut rows = Rows::new(alloc);
    for asked in items_argument(request, "breakpoints") {
        let id = text_member(asked, "dataId").unwrap_or("");
        let found = watched_of(debuggee.prompt.session(), id);
        let mut row = Row::new(alloc).flag("verified", found.is_some())?;
        match found {
            Some(found) => watched.push(found)?,
            None => row = row.text("message", "there is no such value")?,
        }
        rows = rows.row(row)?;
    }
    debuggee
        .watches
        .replace(debuggee.prompt.session(), &watched)?;
    let body = Body::new(alloc).rows("breakpoints", rows)?;
    Ok(Reply::done(alloc, body))
}
