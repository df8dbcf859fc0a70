//! What the scripts of clients ask for, before their database is looked at.

ghost use Rattle.std.specs.Prelude.{◌≡◌, ◌≤◌, ◌∷◌, [], true, IfOk, Ok, length};
ghost use Rattle.std.specs.List.{list_all};
ghost use Rattle.spe_script.specs.Script.{script_of};
ghost use Rattle.spe_serve.specs.Asked.{CountsScripts, Gives, IfTexts, IsUnfailed, are_carried_out, asked_of, bodies_from, body_before, built_bodies, is_carried_out, is_taken, may_write, texts_from, texts_seen, then_next, unread_at};

use spe_clients::{Client, Clients};
use spe_disk::{ScriptFault, Scripts};
use spe_model::{Statement, Text, Tx, TxKind, Txs};
use spe_script::{ScriptError, ScriptKind, read_script};
use std::alloc::{AllocError, AllocFailed, Global};

/// Why no client is served, before the database is looked at. Clients are counted from 1, and each is
/// named by its script.
#[derive(Debug, Drop)]
pub enum Unasked {
    /// There is no script of the client's name.
    NoScript {
        client: u32,
    },
    /// The client's script is refused, for what stands on this line.
    BadScript {
        client: u32,
        line: u64,
        kind: ScriptKind,
    },
    /// A client asks for what is not built yet.
    NotBuilt,
    /// The scripts failed.
    Failed,
    /// There was no memory.
    Memory,
}

impl From<ScriptFault> for Unasked {
    ghost use Rattle.spe_serve.specs.Asked.{unread};

    ghost from_gives = { λ fault e. e ≡ unread fault };

    fn from(fault: ScriptFault) -> Unasked {
        match fault {
            ScriptFault::Failed => Unasked::Failed,
            ScriptFault::Memory(_) => Unasked::Memory,
        }
    }
}

impl<T: Drop> From<AllocFailed<T>> for Unasked {
    ghost use Rattle.spe_serve.specs.declared.scripts.Unasked.TheVariants.{Memory};

    ghost from_gives = { λ _ e. e ≡ Memory };

    fn from(_error: AllocFailed<T>) -> Unasked {
        Unasked::Memory
    }
}

impl From<AllocError> for Unasked {
    ghost use Rattle.spe_serve.specs.declared.scripts.Unasked.TheVariants.{Memory};

    ghost from_gives = { λ _ e. e ≡ Memory };

    fn from(_error: AllocError) -> Unasked {
        Unasked::Memory
    }
}

// The texts of the scripts of these names.
fn read_texts<C: Scripts>(
    alloc: Global,
    scripts: &mut C,
    names: &[Text],
) -> Result<Vec<Vec<u8>>, Unasked>
    requires few { length names.now ≤ 64 }
    ensures texts { IfTexts (C.texts scripts.old) (λ texts. Gives (λ v. texts_seen v.items) result (texts_from texts 1 names.now)) }
    ensures few { IfOk result (λ v. length v.items ≤ 64) }
    ensures counts { CountsScripts (C.faults scripts.old) (C.faults scripts.new) result }
{
    let mut texts = Vec::new(alloc);
    let mut client = 1u32;
    let mut left = names;
    while let [name, rest @ ..] = left {
        match scripts.read(alloc, name.as_str())? {
            Some(text) => texts.push(text)?,
            None => return Err(Unasked::NoScript { client }),
        }
        client += 1;
        left = rest;
    }
    Ok(texts)
}

// Why a script is not read.
fn unread_at(client: u32, line: u64, kind: ScriptKind) -> Unasked
    ensures { result ≡ unread_at client line kind }
{
    match kind {
        ScriptKind::Memory => Unasked::Memory,
        ScriptKind::NotUtf8
        | ScriptKind::Token
        | ScriptKind::Expected
        | ScriptKind::Unsupported
        | ScriptKind::NumberRange
        | ScriptKind::Nested
        | ScriptKind::NotOpen
        | ScriptKind::TooLong => Unasked::BadScript { client, line, kind },
    }
}

// The transactions of a client's script.
fn read_body(alloc: Global, client: u32, text: &[u8]) -> Result<Txs, Unasked>
    ensures body { Gives (λ body. body ∷ []) result (body_before client (script_of text.now) (Ok [])) }
    ensures unfailed { IsUnfailed result }
{
    match read_script(alloc, text) {
        Ok(body) => Ok(body),
        Err(ScriptError { line, kind }) => Err(unread_at(client, line, kind)),
    }
}

// The transactions of these scripts.
fn read_bodies(alloc: Global, texts: &[Vec<u8>]) -> Result<Vec<Txs>, Unasked>
    requires few { length texts.now ≤ 64 }
    ensures bodies { Gives (λ v. v.items) result (bodies_from 1 (texts_seen texts.now)) }
    ensures unfailed { IsUnfailed result }
{
    let mut bodies = Vec::new(alloc);
    let mut client = 1u32;
    let mut left = texts;
    while let [text, rest @ ..] = left {
        match read_body(alloc, client, text.as_slice()) {
            Ok(body) => bodies.push(body)?,
            Err(why) => return Err(why),
        }
        client += 1;
        left = rest;
    }
    Ok(bodies)
}

// Whether a statement is carried out so far.
fn is_taken(statement: &Statement) -> bool
    ensures { result ≡ is_taken statement.now }
{
    match statement {
        Statement::Select { .. }
        | Statement::Count { .. }
        | Statement::Insert { .. }
        | Statement::Update { .. } => true,
        Statement::Delete { .. } => false,
    }
}

fn may_write(kind: TxKind) -> bool
    ensures { result ≡ may_write kind }
{
    match kind {
        TxKind::ReadWrite => true,
        TxKind::ReadOnly => false,
    }
}

fn are_taken(statements: &[Statement]) -> bool
    ensures { result ≡ list_all is_taken statements.now }
{
    statements.iter().all(|statement| is_taken(statement))
}

// Whether a transaction is carried out so far.
fn is_carried_out(tx: &Tx) -> bool
    ensures { result ≡ is_carried_out tx.now }
{
    may_write(tx.kind) && are_taken(tx.statements.as_slice())
}

fn is_all_carried_out(body: &[Tx]) -> bool
    ensures { result ≡ list_all is_carried_out body.now }
{
    body.iter().all(|tx| is_carried_out(tx))
}

// Whether all transactions of all clients are carried out so far.
fn are_carried_out(bodies: &[Txs]) -> bool
    ensures { result ≡ are_carried_out bodies.now }
{
    bodies
        .iter()
        .all(|body| is_all_carried_out(body.as_slice()))
}

/// The transactions of each client, by the names of their scripts.
///
/// All scripts are read, then all are parsed, so that what is wrong with them is found before a database is
/// looked at. A transaction that only reads, and a DELETE, are not built yet.
pub fn read_clients<C: Scripts>(
    alloc: Global,
    scripts: &mut C,
    names: &[Text],
) -> Result<Vec<Txs>, Unasked>
    requires few { length names.now ≤ 64 }
    ensures asked { IfTexts (C.texts scripts.old) (λ texts. Gives (λ v. v.items) result (asked_of texts names.now)) }
    ensures built { IfOk result (λ v. are_carried_out v.items ≡ true) }
    ensures counts { CountsScripts (C.faults scripts.old) (C.faults scripts.new) result }
{
    let texts = read_texts(alloc, scripts, names)?;
    let bodies = match read_bodies(alloc, texts.as_slice()) {
        Ok(bodies) => bodies,
        Err(why) => return Err(why),
    };
    if are_carried_out(bodies.as_slice()) {
        Ok(bodies)
    } else {
        Err(Unasked::NotBuilt)
    }
}

// The client that has these transactions.
fn client_of(body: Txs) -> Client
    requires { list_all is_carried_out body ≡ true }
    ensures { result ≡ body }
{
    Client::new(body.into_vec())
}

/// The clients that have these transactions, with room for all their outcomes.
pub fn clients_of(alloc: Global, bodies: Vec<Txs>) -> Result<Clients, AllocError>
    requires { are_carried_out bodies.items ≡ true }
    ensures { IfOk result (λ c. c ≡ bodies.items) }
{
    let mut left = bodies;
    left.reverse();
    let mut clients = Vec::with_capacity(alloc, left.len())?;
    while let Some(body) = left.pop() {
        clients.push(client_of(body))?;
    }
    Clients::new(alloc, clients)
}
