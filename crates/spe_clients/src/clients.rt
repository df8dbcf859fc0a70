//! Clients that are to be run, with room for all that becomes of them.

ghost use Rattle.std.specs.Prelude.{◌≡◌, ◌+◌, ◌<◌, ◌≤◌, ◌^◌, ◌++◌, ◌∷◌, [], All, IfOk, OnOk, length, map, reverse, vec_capacity, vec_len};
ghost use Rattle.spe_clients.specs.Place.{script_of, scripts_of};
ghost use Rattle.spe_clients.specs.Script.{MayRun};

use crate::place::Place;
use crate::room::put;
use spe_model::{Transcript, Tx};
use std::alloc::{AllocError, Global};
use std::marker::Model;

/// A client: its transactions in order, each of which may write. Seen as their list.
#[derive(Debug, Drop)]
pub struct Client {
    txs: Vec<Tx>,
}

impl Model for Client {
    ghost use Rattle.std.specs.Prelude.{List, All};
    ghost use Rattle.spe_model.specs.declared.transaction.Tx.{Tx};
    ghost use Rattle.spe_clients.specs.Script.{MayRun};

    ghost Value = { List Tx };

    ghost view = { λ c. c.txs.items };

    ghost invariant = { λ c. All MayRun c.txs.items };
}

impl Client {
    /// A client with these transactions.
    pub fn new(txs: Vec<Tx>) -> Client
        requires { All MayRun txs.items }
        ensures { result ≡ txs.items }
    {
        Client { txs }
    }
}

/// Clients with room for the outcomes of all their transactions. Seen as their transactions, client by
/// client.
#[derive(Drop)]
pub struct Clients {
    pub(crate) places: Vec<Place>,
    pub(crate) transcripts: Vec<Transcript>,
}

impl Model for Clients {
    ghost use Rattle.std.specs.Prelude.{◌≡◌, ◌<◌, ◌≤◌, ◌^◌, List, [], vec_capacity, vec_len};
    ghost use Rattle.spe_model.specs.declared.transaction.Tx.{Tx};
    ghost use Rattle.spe_clients.specs.Place.{scripts_of};

    ghost Value = { List (List Tx) };

    ghost view = { λ c. scripts_of c.places.items };

    ghost invariant = { λ c. (vec_len c.places < 2 ^ 32) × (c.transcripts.items ≡ []) × (vec_len c.places ≤ vec_capacity c.transcripts) };
}

// The transactions, the last first.
fn reversed(txs: Vec<Tx>) -> Vec<Tx>
    ensures { result.items ≡ reverse txs.items }
{
    let mut list = txs;
    list.as_mut_slice().reverse();
    list
}

// A place for a client, with room for the outcomes of all its transactions.
fn placed(alloc: Global, client: Client) -> Result<Place, AllocError>
    ensures { IfOk result (λ p. script_of p ≡ client) }
{
    let count = client.txs.len();
    if count >= 1 << 32 {
        return Err(AllocError);
    }
    let answers = Vec::with_capacity(alloc, count)?;
    let left = reversed(client.txs);
    Ok(Place { left, answers })
}

// A place for each client, the last of them first.
fn seated(alloc: Global, clients: Vec<Client>) -> Result<Vec<Place>, AllocError>
    ensures scripts { IfOk result (λ places. scripts_of places.items ≡ clients.items) }
    ensures count { IfOk result (λ places. vec_len places ≡ vec_len clients) }
{
    let mut waiting = clients;
    let mut places = Vec::with_capacity(alloc, waiting.len())?;
    while let Some(client) = waiting.pop() {
        let place = placed(alloc, client)?;
        put(&mut places, place);
    }
    Ok(places)
}

impl Clients {
    /// These clients, with all memory for their outcomes. Out of memory also where there are 2^32 clients or
    /// more, or one has so many transactions, as numbers of both have 32 bits.
    pub fn new(alloc: Global, clients: Vec<Client>) -> Result<Clients, AllocError>
        ensures { IfOk result (λ c. c ≡ clients.items) }
    {
        let count = clients.len();
        if count >= 1 << 32 {
            return Err(AllocError);
        }
        let transcripts = Vec::with_capacity(alloc, count)?;
        let places = seated(alloc, clients)?;
        Ok(Clients {
            places,
            transcripts,
        })
    }
}
