// Answers and notifications, as messages.
use serde_json::{Value, json};
use std::alloc::{AllocError, Global};
use std::io;
use std::io::Write;

/// Errors of the protocol, by their numbers.
#[derive(Clone, Copy, PartialEq, Eq)]
pub(crate) enum Code {
    ParseError,
    InvalidRequest,
    MethodNotFound,
    InvalidParams,
    InternalError,
    NotInitialized,
    RequestFailed,
    RequestCancelled,
    ContentModified,
}

impl Code {
    fn number(self) -> i64 {
        match self {
            Code::ParseError => -32700,
            Code::InvalidRequest => -32600,
            Code::MethodNotFound => -32601,
            Code::InvalidParams => -32602,
            Code::InternalError => -32603,
            Code::NotInitialized => -32002,
            Code::RequestFailed => -32803,
            Code::RequestCancelled => -32800,
            Code::ContentModified => -32801,
        }
    }
}

/// Why a request has no result.
#[derive(Drop)]
pub(crate) struct Failure {
    pub(crate) code: Code,
    pub(crate) message: String,
}

impl Failure {
    pub(crate) fn new(alloc: Global, code: Code, message: &str) -> Failure {
        Failure {
            code,
            message: String::from_str(alloc, message).unwrap_or(String::new(alloc)),
        }
    }
}

/// The messages that are to be written.
#[derive(Drop)]
pub(crate) struct Outbox {
    alloc: Global,
    bytes: Vec<u8>,
}

impl Outbox {
    pub(crate) fn new(alloc: Global) -> Outbox {
        Outbox {
            alloc,
            bytes: Vec::new(alloc),
        }
    }

    /// Answers a request.
    pub(crate) fn answer(
        &mut self,
        id: &Value,
        found: Result<Value, Failure>,
    ) -> Result<(), AllocError> {
        let alloc = self.alloc;
        let message = match found {
            Ok(value) => json!(in alloc; {"jsonrpc": "2.0", "id": id, "result": value})?,
            Err(failure) => {
                let code = failure.code.number();
                let said = failure.message.as_str();
                json!(in alloc; {
                    "jsonrpc": "2.0",
                    "id": id,
                    "error": {"code": code, "message": said}
                })?
            }
        };
        self.put(&message)
    }

    /// Tells the client something.
    pub(crate) fn notify(&mut self, method: &str, params: Value) -> Result<(), AllocError> {
        let alloc = self.alloc;
        let message = json!(in alloc; {"jsonrpc": "2.0", "method": method, "params": params})?;
        self.put(&message)
    }

    fn put(&mut self, message: &Value) -> Result<(), AllocError> {
        let body = message.to_string(self.alloc)?;
        let length = body.len();
        let header = format!(in self.alloc; "Content-Length: {length}\r\n\r\n")?;
        self.bytes.extend_from_slice(header.as_bytes())?;
        self.bytes.extend_from_slice(body.as_bytes())?;
        Ok(())
    }

    /// Writes the messages.
    pub(crate) fn send(&mut self, rt: &HostRuntime) -> io::Result<()> {
        if !self.bytes.is_empty() {
            let mut output = rt.stdout();
            output.write_all(&self.bytes)?;
            output.flush()?;
            self.bytes = Vec::new(self.alloc);
        }
        Ok(())
    }
}
