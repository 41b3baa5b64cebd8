//! A connection in memory.

use http_server::{Config, Connection, Service, serve};
use ledger::Accounts;
use std::alloc::{AllocError, Global};
use std::hash::RandomState;
use std::sync::Wait;
use thread_work::{HeapThread, Joint};

/// Where what is needed to serve a connection comes from.
#[derive(Clone, Copy, Drop)]
pub struct Peer {
    pub alloc: Global,
    pub keys: RandomState,
}

/// What the thread's accounts answer to this request line, without a body, on a connection that ends after it. None where the connection
/// fails.
pub fn answered<'t, 'a, J: Joint, R: Wait>(
    rt: &'t R,
    peer: Peer,
    thread: &'t mut HeapThread<'a, J>,
    line: &str,
) -> Option<Vec<u8>> {
    let request = format!(in peer.alloc; "{line} HTTP/1.1\r\nHost: h\r\n\r\n").ok()?;
    let mut accounts = Accounts {
        rt,
        alloc: peer.alloc,
        thread,
    };
    served(peer, &mut accounts, request.as_bytes())
}

// What this service writes where these bytes are read.
fn served<S: Service>(peer: Peer, service: &mut S, request: &[u8]) -> Option<Vec<u8>> {
    let mut reader = request;
    let mut connection = Connection::new(peer.alloc, peer.keys, Config::default());
    let mut written = Vec::new(peer.alloc);
    serve(&mut connection, service, &mut reader, &mut written).ok()?;
    Some(written)
}

/// Whether the answer has this status, no field but its length, and this text.
pub fn is_answer(alloc: Global, answer: &[u8], status: &str, text: &str) -> bool {
    match written(alloc, status, text) {
        Ok(expected) => answer == expected.as_bytes(),
        Err(_) => false,
    }
}

fn written(alloc: Global, status: &str, text: &str) -> Result<String, AllocError> {
    let length = text.len();
    format!(in alloc; "HTTP/1.1 {status}\r\ncontent-length: {length}\r\n\r\n{text}")
}
