//! The server: messages, what they ask for, and what it answers.
use crate::answers::{Code, Failure, Outbox};
use crate::batch::{Fate, Letter, fates};
use crate::changes::change;
use crate::diagnostics::diagnostics;
use crate::documents::{Document, Documents};
use crate::input::{Input, Taken};
use crate::json::{
    add, is_true_at, list_at, number_at, position_at, position_in, range_at, text_at,
};
use crate::layouts::{layout, layout_range};
use crate::names::{Asked, answer, program_of};
use crate::outline::{folds, symbols};
use crate::places::{Position, Units};
use crate::rename::{Renamed, prepare, rename};
use crate::selection::selection;
use crate::settings::Settings;
use crate::tokens::{MODIFIERS, TYPES, semantic_tokens};
use ecma_commands::VERSION;
use ecma_commands::findings::{Place, fault_of};
use ecma_commands::goals::{NoProgram, goal_of};
use serde_json::{Value, json};
use show::levels::levels;
use statement_trees::tree::Program;
use std::alloc::{AllocError, Global};
use std::io;

/// Where a message has the version of a document.
const VERSION_PATH: &str = "/params/textDocument/version";

/// What is said of a request for an older version.
const MODIFIED: &str = "the document was changed";

/// Where the server is in its life.
#[derive(Clone, Copy, PartialEq, Eq)]
enum Stage {
    /// Before `initialize`.
    New,
    /// Until `shutdown`.
    Serving,
    /// Until `exit`.
    Down,
}

/// What lasts from one message to the next.
#[derive(Drop)]
struct Server {
    alloc: Global,
    stage: Stage,
    /// Whether `exit` came.
    is_over: bool,
    settings: Settings,
    documents: Documents,
    outbox: Outbox,
}

/// Serves until `exit` or the end of input. Answers the status: 0 after `shutdown`, and otherwise 1.
pub fn serve(rt: &HostRuntime) -> u8 {
    let alloc = rt.alloc();
    let mut server = Server {
        alloc,
        stage: Stage::New,
        is_over: false,
        settings: Settings {
            levels: levels(rt),
            units: Units::Utf16,
            lint: false,
            width: 80,
        },
        documents: Documents {
            open: Vec::new(alloc),
        },
        outbox: Outbox::new(alloc),
    };
    let _ = server.run(rt);
    match server.stage {
        Stage::Down => 0,
        _ => 1,
    }
}

impl Server {
    /// Reads and answers messages.
    fn run(&mut self, rt: &HostRuntime) -> io::Result<()> {
        let mut input = Input::new(self.alloc);
        let mut reader = rt.reader();
        for _ in 0..u64::MAX {
            self.take_all(&mut input)?;
            if !self.is_over {
                self.tell_faults()?;
            }
            self.outbox.send(rt)?;
            if self.is_over || !input.read(&mut reader)? {
                break;
            }
        }
        Ok(())
    }

    /// Answers the messages that were read.
    fn take_all(&mut self, input: &mut Input) -> io::Result<()> {
        let mut letters = Vec::new(self.alloc);
        for _ in 0..u64::MAX {
            match input.take()? {
                Taken::Message(bytes) => letters.push(Letter::of(self.alloc, &bytes))?,
                Taken::Bad(why) => letters.push(Letter::Bad(Code::ParseError, why))?,
                Taken::Part => break,
            }
        }
        let fates = fates(self.alloc, &letters)?;
        for (letter, fate) in letters.iter().zip(fates.iter().rev()) {
            if self.is_over {
                break;
            }
            self.take(letter, *fate)?;
        }
        Ok(())
    }

    fn refuse(&mut self, id: &Value, code: Code, why: &str) -> Result<(), AllocError> {
        let failure = Failure::new(self.alloc, code, why);
        self.outbox.answer(id, Err(failure))
    }

    /// Answers a message.
    fn take(&mut self, letter: &Letter, fate: Fate) -> Result<(), AllocError> {
        let message = match letter {
            Letter::Message(message) => message,
            Letter::Bad(code, why) => return self.refuse(&Value::Null, *code, why),
        };
        let Some(method) = text_at(message, "/method") else {
            if message.get("result").is_some() || message.get("error").is_some() {
                return Ok(());
            }
            return self.refuse(&Value::Null, Code::InvalidRequest, "there is no method");
        };
        match (message.get("id"), fate) {
            (Some(id), Fate::Cancelled) => {
                self.refuse(id, Code::RequestCancelled, "the request was cancelled")
            }
            (Some(id), Fate::Outdated) => self.refuse(id, Code::ContentModified, MODIFIED),
            (Some(id), Fate::Answered) => self.request(id, method, message),
            (None, _) => self.notification(method, message),
        }
    }

    /// Answers a request.
    fn request(&mut self, id: &Value, method: &str, message: &Value) -> Result<(), AllocError> {
        match (self.stage, method) {
            (Stage::New, "initialize") => {
                self.initialize(message);
                let result = self.abilities();
                let result = result.map_err(|_| Failure::new(
                    self.alloc,
                    Code::InternalError,
                    "out of memory",
                ));
                self.outbox.answer(id, result)
            }
            (Stage::New, _) => self.refuse(id, Code::NotInitialized, "`initialize` comes first"),
            (Stage::Serving, "shutdown") => {
                self.stage = Stage::Down;
                self.outbox.answer(id, Ok(Value::Null))
            }
            (Stage::Serving, _) => {
                let result = self.result(method, message);
                self.outbox.answer(id, result)
            }
            (Stage::Down, _) => self.refuse(id, Code::InvalidRequest, "the server is shut down"),
        }
    }

    /// Notes what the client says of itself.
    fn initialize(&mut self, message: &Value) {
        self.stage = Stage::Serving;
        for offered in list_at(message, "/params/capabilities/general/positionEncodings") {
            if offered.as_str() == Some("utf-8") {
                self.settings.units = Units::Utf8;
            }
        }
        self.set(message, "/params/initializationOptions");
    }

    /// Notes settings.
    fn set(&mut self, message: &Value, path: &str) {
        if let Some(settings) = message.pointer(path) {
            self.settings.lint = is_true_at(settings, "/lint");
            self.settings.width = number_at(settings, "/width").unwrap_or(80).clamp(20, 1000);
        }
    }

    /// What the server can do.
    fn abilities(&self) -> Result<Value, AllocError> {
        let alloc = self.alloc;
        let units = match self.settings.units {
            Units::Utf16 => "utf-16",
            Units::Utf8 => "utf-8",
        };
        let types = texts(alloc, &TYPES)?;
        let modifiers = texts(alloc, &MODIFIERS)?;
        let legend = json!(in alloc; {"tokenTypes": types, "tokenModifiers": modifiers})?;
        json!(in alloc; {
            "capabilities": {
                "positionEncoding": units,
                "textDocumentSync": {"openClose": true, "change": 2},
                "documentFormattingProvider": true,
                "documentRangeFormattingProvider": true,
                "documentSymbolProvider": true,
                "foldingRangeProvider": true,
                "selectionRangeProvider": true,
                "definitionProvider": true,
                "referencesProvider": true,
                "documentHighlightProvider": true,
                "hoverProvider": true,
                "renameProvider": {"prepareProvider": true},
                "semanticTokensProvider": {"legend": legend, "full": true}
            },
            "serverInfo": {"name": "ecma", "version": VERSION}
        })
    }

    /// The result of a request.
    fn result(&self, method: &str, message: &Value) -> Result<Value, Failure> {
        let answered = match method {
            "textDocument/formatting" | "textDocument/rangeFormatting" => self.formatting(message),
            "textDocument/rename" | "textDocument/prepareRename" => self.renaming(method, message),
            "textDocument/documentSymbol"
            | "textDocument/foldingRange"
            | "textDocument/selectionRange"
            | "textDocument/semanticTokens/full" => self.structure(method, message),
            _ => match asked_by(method, message) {
                Some(asked) => self.naming(asked, message),
                None => {
                    return Err(Failure::new(
                        self.alloc,
                        Code::MethodNotFound,
                        "the method is unknown",
                    ));
                }
            },
        };
        answered.map_err(|none| self.failure(message, none))
    }

    /// The document that a message is of, in the version that the message says, if it says one.
    fn document(&self, message: &Value) -> Result<&Document, Wrong> {
        let uri = text_at(message, "/params/textDocument/uri").ok_or(Wrong::Params)?;
        let document = self.documents.get(uri).ok_or(Wrong::NotOpen)?;
        match message.pointer(VERSION_PATH).and_then(Value::as_i64) {
            Some(version) if version < document.version => Err(Wrong::Outdated),
            _ => Ok(document),
        }
    }

    fn position(&self, message: &Value) -> Result<Position, Wrong> {
        position_at(message, "/params/position").ok_or(Wrong::Params)
    }

    /// The edits of a layout.
    fn formatting(&self, message: &Value) -> Result<Value, Wrong> {
        let document = self.document(message)?;
        let indent = number_at(message, "/params/options/tabSize")
            .unwrap_or(2)
            .min(16);
        let edits = match message.pointer("/params/range") {
            None => layout(self.alloc, document, indent, self.settings)?,
            Some(_) => {
                let range = range_at(message, "/params/range").ok_or(Wrong::Params)?;
                layout_range(self.alloc, document, range, indent, self.settings)?
            }
        };
        Ok(Value::Array(edits))
    }

    /// The edits of another name, or what may be renamed.
    fn renaming(&self, method: &str, message: &Value) -> Result<Value, Wrong> {
        let alloc = self.alloc;
        let document = self.document(message)?;
        let position = self.position(message)?;
        if method == "textDocument/prepareRename" {
            return Ok(prepare(alloc, document, position, self.settings)?);
        }
        let new = text_at(message, "/params/newName").ok_or(Wrong::Params)?;
        match rename(alloc, document, position, new, self.settings)? {
            Renamed::Refused(why) => Err(Wrong::Said(why)),
            Renamed::Edits(edits) => {
                let edits = Value::Array(edits);
                let uri = document.uri.as_str();
                Ok(json!(in alloc; {"changes": {(uri): edits}})?)
            }
        }
    }

    /// Symbols, folds, selections and tokens.
    fn structure(&self, method: &str, message: &Value) -> Result<Value, Wrong> {
        let alloc = self.alloc;
        let document = self.document(message)?;
        let program = program_of(alloc, document, self.settings)?;
        match method {
            "textDocument/documentSymbol" => {
                Ok(symbols(alloc, document, &program, self.settings)?)
            }
            "textDocument/foldingRange" => Ok(folds(alloc, document, &program, self.settings)?),
            "textDocument/selectionRange" => self.selections(document, &program, message),
            _ => {
                let data = semantic_tokens(alloc, document, &program, self.settings)?;
                Ok(json!(in alloc; {"data": data})?)
            }
        }
    }

    fn selections(
        &self,
        document: &Document,
        program: &Program,
        message: &Value,
    ) -> Result<Value, Wrong> {
        let mut ranges = Vec::new(self.alloc);
        for place in list_at(message, "/params/positions") {
            let position = position_in(place).ok_or(Wrong::Params)?;
            let range = selection(self.alloc, document, program, position, self.settings)?;
            add(&mut ranges, range)?;
        }
        Ok(Value::Array(ranges))
    }

    /// What is asked of a name.
    fn naming(&self, asked: Asked, message: &Value) -> Result<Value, Wrong> {
        let document = self.document(message)?;
        let position = self.position(message)?;
        Ok(answer(self.alloc, document, position, asked, self.settings)?)
    }

    /// Why a request has no result.
    fn failure(&self, message: &Value, wrong: Wrong) -> Failure {
        let alloc = self.alloc;
        match wrong {
            Wrong::Params => Failure::new(alloc, Code::InvalidParams, "the parameters are bad"),
            Wrong::NotOpen => Failure::new(alloc, Code::InvalidParams, "the document isn't open"),
            Wrong::Memory => Failure::new(alloc, Code::InternalError, "out of memory"),
            Wrong::Outdated => Failure::new(alloc, Code::ContentModified, MODIFIED),
            Wrong::Said(why) => Failure {
                code: Code::RequestFailed,
                message: why,
            },
            Wrong::NoProgram(none) => match self.fault(message, &none) {
                Ok(why) => Failure {
                    code: Code::RequestFailed,
                    message: why,
                },
                Err(_) => Failure::new(alloc, Code::InternalError, "out of memory"),
            },
        }
    }

    /// The first fault of a document.
    fn fault(&self, message: &Value, none: &NoProgram) -> Result<String, AllocError> {
        let text = match self.document(message) {
            Ok(document) => document.text.as_str(),
            Err(_) => "",
        };
        let place = Place::new(self.alloc, "", text.as_bytes())?;
        let found = fault_of(self.alloc, &place, &none.refusal, self.settings.levels, "")?;
        Ok(found.message)
    }

    /// Does what a notification says.
    fn notification(&mut self, method: &str, message: &Value) -> Result<(), AllocError> {
        match (self.stage, method) {
            (_, "exit") => {
                self.is_over = true;
                Ok(())
            }
            (Stage::Serving, "textDocument/didOpen") => self.open(message),
            (Stage::Serving, "textDocument/didChange") => self.change(message),
            (Stage::Serving, "textDocument/didClose") => self.close(message),
            (Stage::Serving, "workspace/didChangeConfiguration") => {
                self.set(message, "/params/settings/ecma");
                for document in &mut self.documents.open {
                    document.is_changed = true;
                }
                Ok(())
            }
            _ => Ok(()),
        }
    }

    fn open(&mut self, message: &Value) -> Result<(), AllocError> {
        let uri = text_at(message, "/params/textDocument/uri");
        let text = text_at(message, "/params/textDocument/text");
        let (Some(uri), Some(text)) = (uri, text) else {
            return Ok(());
        };
        self.documents.put(Document {
            uri: String::from_str(self.alloc, uri)?,
            version: version_in(message),
            text: String::from_str(self.alloc, text)?,
            goal: goal_of(uri),
            is_changed: true,
        })
    }

    fn change(&mut self, message: &Value) -> Result<(), AllocError> {
        let (alloc, units) = (self.alloc, self.settings.units);
        let Some(at) = text_at(message, "/params/textDocument/uri").and_then(|uri| self
            .documents
            .find(uri)) else {
            return Ok(());
        };
        if let Some(document) = self.documents.open.get_mut(at) {
            document.version = version_in(message);
            for one in list_at(message, "/params/contentChanges") {
                change(alloc, document, one, units)?;
            }
        }
        Ok(())
    }

    /// Closes a document, and takes back its faults.
    fn close(&mut self, message: &Value) -> Result<(), AllocError> {
        let Some(uri) = text_at(message, "/params/textDocument/uri") else {
            return Ok(());
        };
        if self.documents.close(uri) {
            let alloc = self.alloc;
            let params = json!(in alloc; {"uri": uri, "diagnostics": []})?;
            self.outbox
                .notify("textDocument/publishDiagnostics", params)?;
        }
        Ok(())
    }

    /// Tells the faults of the documents that were changed.
    fn tell_faults(&mut self) -> Result<(), AllocError> {
        let (alloc, settings) = (self.alloc, self.settings);
        let Server {
            documents,
            outbox,
            ..
        } = self;
        for document in &mut documents.open {
            if document.is_changed {
                document.is_changed = false;
                tell(alloc, settings, document, outbox)?;
            }
        }
        Ok(())
    }
}

/// Tells the faults of a document.
fn tell(
    alloc: Global,
    settings: Settings,
    document: &Document,
    outbox: &mut Outbox,
) -> Result<(), AllocError> {
    let found = Value::Array(diagnostics(alloc, document, settings)?);
    let uri = document.uri.as_str();
    let version = document.version;
    let params = json!(in alloc; {"uri": uri, "version": version, "diagnostics": found})?;
    outbox.notify("textDocument/publishDiagnostics", params)
}

/// Why a request can't be answered.
#[derive(Drop)]
enum Wrong {
    Params,
    NotOpen,
    /// It is of an older version of the document.
    Outdated,
    Memory,
    NoProgram(NoProgram),
    Said(String),
}

impl From<AllocError> for Wrong {
    fn from(_: AllocError) -> Wrong {
        Wrong::Memory
    }
}

impl From<NoProgram> for Wrong {
    fn from(none: NoProgram) -> Wrong {
        Wrong::NoProgram(none)
    }
}

/// The version of a document in a message.
fn version_in(message: &Value) -> i64 {
    message
        .pointer(VERSION_PATH)
        .and_then(Value::as_i64)
        .unwrap_or(0)
}

/// What a method asks of a name.
fn asked_by(method: &str, message: &Value) -> Option<Asked> {
    match method {
        "textDocument/definition" => Some(Asked::Definition),
        "textDocument/documentHighlight" => Some(Asked::Highlights),
        "textDocument/hover" => Some(Asked::Hover),
        "textDocument/references" => {
            if is_true_at(message, "/params/context/includeDeclaration") {
                Some(Asked::References)
            } else {
                Some(Asked::Uses)
            }
        }
        _ => None,
    }
}

/// Texts as JSON.
fn texts(alloc: Global, list: &[&str]) -> Result<Value, AllocError> {
    let mut values = Vec::new(alloc);
    for text in list {
        values.push(Value::try_from_str(alloc, text)?)?;
    }
    Ok(Value::Array(values))
}
