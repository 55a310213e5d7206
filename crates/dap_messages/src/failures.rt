use crate::told::{Detail, Failure};
use wire_core::Text;

impl Failure {
    ghost use Rattle.std.specs.Prelude.{◌≡◌};
    ghost use Rattle.dap_messages.specs.Failures.{unsupported, bad_arguments};
    ghost use Rattle.dap_messages.specs.Failures.{already_attached, not_attached, target_gone};
    ghost use Rattle.dap_messages.specs.Failures.{not_stopped, unknown_thread, target_error, references_spent};
    ghost use Rattle.dap_messages.specs.Failures.{stale, unknown_reference, wrong_kind};
    ghost use Rattle.dap_messages.specs.Failures.{no_such_name, bad_expression, bad_index, not_writable};

    /// The adapter doesn't have this command: code 1, `unsupported`. (DAP specification, Types, Message)
    pub fn unsupported() -> Failure
        ensures { result ≡ unsupported }
    {
        Failure {
            code: 1,
            detail: Detail::Plain,
        }
    }

    /// The argument of this name breaks its rule: code 2, `badArguments` and the name.
    /// (DAP specification, Types, Message)
    pub fn bad_arguments(name: Text) -> Failure
        ensures { result ≡ bad_arguments name }
    {
        Failure {
            code: 2,
            detail: Detail::Name(name),
        }
    }

    /// The session is attached to its target already: code 16, `alreadyAttached`. (DAP specification, Types, Message)
    pub fn already_attached() -> Failure
        ensures { result ≡ already_attached }
    {
        Failure {
            code: 16,
            detail: Detail::Plain,
        }
    }

    /// The session isn't attached to its target yet, and the command needs it to be: code 3, `notAttached`.
    /// (DAP specification, Types, Message)
    pub fn not_attached() -> Failure
        ensures { result ≡ not_attached }
    {
        Failure {
            code: 3,
            detail: Detail::Plain,
        }
    }

    /// The target has ended, or the session did before the request was done: code 10, `targetGone`.
    /// (DAP specification, Types, Message)
    pub fn target_gone() -> Failure
        ensures { result ≡ target_gone }
    {
        Failure {
            code: 10,
            detail: Detail::Plain,
        }
    }

    /// The command needs a stop, and none is in hand: code 4, `notStopped`. (DAP specification, Types, Message)
    pub fn not_stopped() -> Failure
        ensures { result ≡ not_stopped }
    {
        Failure {
            code: 4,
            detail: Detail::Plain,
        }
    }

    /// The number that the request names was given in the stop of this number, which has ended: code 5, `stale` and the
    /// stop in decimal. (DAP specification, Types, Message)
    pub fn stale(stop: u64) -> Failure
        ensures { result ≡ stale stop }
    {
        Failure {
            code: 5,
            detail: Detail::Number(stop),
        }
    }

    /// The number that the request names was never given: code 6, `unknownReference` and the next one that would be, in
    /// decimal. (DAP specification, Types, Message)
    pub fn unknown_reference(next: u32) -> Failure
        ensures { result ≡ unknown_reference next }
    {
        Failure {
            code: 6,
            detail: Detail::Number(u64::from(next)),
        }
    }

    /// The number that the request names stands for something of another kind: code 7, `wrongKind`.
    /// (DAP specification, Types, Message)
    pub fn wrong_kind() -> Failure
        ensures { result ≡ wrong_kind }
    {
        Failure {
            code: 7,
            detail: Detail::Plain,
        }
    }

    /// No thread has the number that the request names, or that thread isn't alive or threw nothing in this stop:
    /// code 8, `unknownThread`. (DAP specification, Types, Message; JDWP, Error Constants, INVALID_THREAD)
    pub fn unknown_thread() -> Failure
        ensures { result ≡ unknown_thread }
    {
        Failure {
            code: 8,
            detail: Detail::Plain,
        }
    }

    /// The target refused a question, an event request or a write of the request with this error, another than 10: code
    /// 9, `targetError` and the error in decimal. (DAP specification, Types, Message; JDWP, Error Constants)
    pub fn target_error(error: u16) -> Failure
        ensures { result ≡ target_error error }
    {
        Failure {
            code: 9,
            detail: Detail::Number(u64::from(error)),
        }
    }

    /// Nothing has the name that the request gives, or that stands in its expression: code 11, `noSuchName`.
    /// (DAP specification, Types, Message)
    pub fn no_such_name() -> Failure
        ensures { result ≡ no_such_name }
    {
        Failure {
            code: 11,
            detail: Detail::Plain,
        }
    }

    /// The text that the request gives is outside the grammar at this place, in bytes from its start, or is no value of
    /// the kind, with the place 0: code 12, `badExpression` and the place in decimal.
    /// (DAP specification, Types, Message)
    pub fn bad_expression(place: u32) -> Failure
        ensures { result ≡ bad_expression place }
    {
        Failure {
            code: 12,
            detail: Detail::Number(u64::from(place)),
        }
    }

    /// The index that the request gives is outside the array, or stands behind something else than an array: code 13,
    /// `badIndex`. (DAP specification, Types, Message)
    pub fn bad_index() -> Failure
        ensures { result ≡ bad_index }
    {
        Failure {
            code: 13,
            detail: Detail::Plain,
        }
    }

    /// The variable can't be set, or not to such a value: code 14, `notWritable`. (DAP specification, Types, Message)
    pub fn not_writable() -> Failure
        ensures { result ≡ not_writable }
    {
        Failure {
            code: 14,
            detail: Detail::Plain,
        }
    }

    /// Too few numbers are left for what the response would show: code 15, `referencesSpent`.
    /// (DAP specification, Types, Message)
    pub fn references_spent() -> Failure
        ensures { result ≡ references_spent }
    {
        Failure {
            code: 15,
            detail: Detail::Plain,
        }
    }
}
