//! The ports and the names of a flow as its texts give them, be they names or not.
ghost use Rattle.std.specs.Prelude.{◌≡◌, IfOk, OnOk, map, fold};
ghost use Rattle.flow_types.specs.Names.{form_of};
ghost use Rattle.rule_graph.specs.Checked.{names_in};
ghost use Rattle.rule_graph.specs.Flows.{remote_text, raw_port, raw_outputs};
ghost use Rattle.rule_graph.specs.Flows.{raw_inputs, with_port, names_of};

use flow_types::{Bytes, RawFile, RawFlow, RawRule, Rows, form_of};
use std::alloc::{AllocError, Global};
use std::collections::BTreeSet;

// A file's own name and its remote name, each in its form.
#[derive(Drop)]
pub(crate) struct RawPort {
    pub(crate) local: Bytes,
    pub(crate) remote: Bytes,
}

// A file's remote text, its own where it has none.
pub(crate) fn remote_text(file: &RawFile) -> &[u8]
    ensures { result.now ≡ remote_text file.now }
{
    match &file.remote {
        Some(remote) => remote.as_str().as_bytes(),
        None => file.local.as_str().as_bytes(),
    }
}

pub(crate) fn form(alloc: Global, text: &[u8]) -> Result<Bytes, AllocError>
    ensures { IfOk result (λ form. form ≡ form_of text.now) }
{
    let bytes = form_of(alloc, text)?;
    Ok(Bytes::from_vec(bytes))
}

pub(crate) fn raw_port(alloc: Global, file: &RawFile) -> Result<RawPort, AllocError>
    ensures { IfOk result (λ port. port ≡ raw_port file.now) }
{
    let local = form(alloc, file.local.as_str().as_bytes())?;
    let remote = form(alloc, remote_text(file))?;
    Ok(RawPort { local, remote })
}

// The ports of these files, as many as there are.
fn ports_of(alloc: Global, files: &Rows<RawFile>) -> Result<Vec<RawPort>, AllocError>
    ensures { IfOk result (λ ports. ports.items ≡ map raw_port files.now) }
{
    let mut ports = Vec::new(alloc);
    for file in files.as_slice() {
        ports.push(raw_port(alloc, file)?)?;
    }
    Ok(ports)
}

// A rule's outputs, as many as it states.
pub(crate) fn raw_outputs(alloc: Global, rule: &RawRule) -> Result<Vec<RawPort>, AllocError>
    ensures { IfOk result (λ ports. ports.items ≡ raw_outputs rule.now) }
{
    ports_of(alloc, &rule.outputs)
}

// A rule's inputs, each port once, where it stands first.
pub(crate) fn raw_inputs(alloc: Global, rule: &RawRule) -> Result<Vec<RawPort>, AllocError>
    ensures { IfOk result (λ ports. ports.items ≡ raw_inputs rule.now) }
{
    let mut seen = BTreeSet::new(alloc);
    let mut ports = Vec::new(alloc);
    for file in rule.inputs.as_slice() {
        let port = raw_port(alloc, file)?;
        if seen.insert(key_of(alloc, &port)?)? {
            ports.push(port)?;
        }
    }
    Ok(ports)
}

// A port as a key of a set.
fn key_of(alloc: Global, port: &RawPort) -> Result<(Vec<u8>, Vec<u8>), AllocError>
    ensures { IfOk result (λ key. port.now ≡ record { local = key.0.items; remote = key.1.items }) }
{
    let local = Vec::from_slice(alloc, port.local.as_slice())?;
    let remote = Vec::from_slice(alloc, port.remote.as_slice())?;
    Ok((local, remote))
}

// The names of a flow's files, each once, ascending by bytes.
pub(crate) fn names_of(alloc: Global, flow: &RawFlow) -> Result<Vec<Bytes>, AllocError>
    ensures { IfOk result (λ names. names.items ≡ names_of flow.now) }
{
    let mut names = BTreeSet::new(alloc);
    for rule in flow.rules.as_slice() {
        add_names(alloc, &mut names, &rule.outputs)?;
        add_names(alloc, &mut names, &rule.inputs)?;
    }
    listed(alloc, names)
}

// The keys of a set of names, in order.
pub(crate) fn listed(alloc: Global, names: BTreeSet<Vec<u8>>) -> Result<Vec<Bytes>, AllocError>
    ensures { IfOk result (λ texts. texts.items ≡ names_in names) }
{
    let mut texts = Vec::new(alloc);
    for name in names {
        texts.push(Bytes::from_vec(name))?;
    }
    Ok(texts)
}

// Puts the files' own names among the names.
fn add_names(
    alloc: Global,
    names: &mut BTreeSet<Vec<u8>>,
    files: &Rows<RawFile>,
) -> Result<(), AllocError>
    ensures { OnOk result (names_in names.new
        ≡ fold with_port (names_in names.old) (map raw_port files.now)) }
{
    for file in files.as_slice() {
        names.insert(form_of(alloc, file.local.as_str().as_bytes())?)?;
    }
    Ok(())
}
