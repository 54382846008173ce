//! Messages of the editors' protocols as JSON: those of JSON-RPC, which the Language Server Protocol has, and those of the Debug
//! Adapter Protocol. A client of either is answered message by message: a request has one response, first.
//!
//! - `dap_answer`: responses and events of the Debug Adapter Protocol; `dap_sender`: the same, numbered and put behind what a
//!   client is told.
//! - `dap_request`: its requests; `dap_server`: a client of it.
//! - `error_code`: the errors of JSON-RPC and of the Language Server Protocol.
//! - `rpc_answer`: responses, notifications and requests of JSON-RPC; `rpc_outbox`: the same, put behind what a client is told.
//! - `rpc_message`: what a message of JSON-RPC is; `rpc_server`: a client of it.
//! - `texts`: texts of messages, put behind what a client is told.
#![tactic(auto)]

pub mod dap_answer;
pub mod dap_request;
pub mod dap_sender;
pub mod dap_server;
pub mod error_code;
pub mod rpc_answer;
pub mod rpc_message;
pub mod rpc_outbox;
pub mod rpc_server;
pub mod texts;

// What the crates above name through this one.
pub use sfc_frames;
