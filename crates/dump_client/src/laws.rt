//! What holds of all conversations. Each law is a contract over all messages.
ghost use Rattle.std.specs.Prelude.{◌≡◌, ◌⊎◌, true, None, List, ℕ};
ghost use Rattle.serde_json.specs.Data.{Data};
ghost use Rattle.dump_client.specs.Conversing.{answered, asked, request_due};
ghost use Rattle.dump_client.specs.Phases.{is_continuing, is_pausing, is_reading};
ghost use Rattle.dump_client.specs.declared.conversation.Conversation.{Conversation as TheConversation};
ghost use Rattle.dump_client.specs.declared.due.Due.TheVariants.{Threads};

/// Stacks and values are asked for only while the target stands still: the first of them behind the second list of threads,
/// which is asked for behind the `pause` alone; and behind them comes the `continue`.
pub fn values_are_asked_for_in_a_pause()
    ensures begins { (d : Data) (c : TheConversation) → is_reading (answered d c).due ≡ true
        → (is_reading c.due ≡ true) ⊎ (c.due ≡ Threads) }
    ensures paused { (d : Data) (c : TheConversation) → (answered d c).due ≡ Threads → is_pausing c.due ≡ true }
    ensures goes_on { (d : Data) (c : TheConversation) → is_reading c.due ≡ true
        → (is_reading (answered d c).due ≡ true) ⊎ (is_continuing (answered d c).due ≡ true) }
{}

/// Behind a request no other is due before its response has come.
pub fn a_request_waits_for_its_response()
    ensures { (c : TheConversation) → request_due (asked c) ≡ None }
{}
