//! That messages and their texts belong together one to one.

ghost use Rattle.std.specs.Prelude.{◌≡◌, List, ℕ, Ok};
ghost use Rattle.nr_message.specs.declared.message.Hello.{Hello as HelloView};
ghost use Rattle.nr_message.specs.declared.message.Call.{Call as CallView};
ghost use Rattle.nr_message.specs.declared.message.Reply.{Reply as ReplyView};
ghost use Rattle.nr_message.specs.Reading.{hello_of, call_of, reply_of};
ghost use Rattle.nr_message.specs.Text.{hello, call, reply};

/// Promises that a text of a message is read as this message, so that no text has two. It does nothing.
pub fn texts_are_read()
    ensures hello { (m : HelloView) (bytes : List ℕ) → hello m bytes → hello_of bytes ≡ Ok m }
    ensures call { (m : CallView) (bytes : List ℕ) → call m bytes → call_of bytes ≡ Ok m }
    ensures reply { (m : ReplyView) (bytes : List ℕ) → reply m bytes → reply_of bytes ≡ Ok m }
{}

/// Promises that no message has two texts. It does nothing.
pub fn texts_are_one()
    ensures hello { (m : HelloView) (a b : List ℕ) → hello m a → hello m b → a ≡ b }
    ensures call { (m : CallView) (a b : List ℕ) → call m a → call m b → a ≡ b }
    ensures reply { (m : ReplyView) (a b : List ℕ) → reply m a → reply m b → a ≡ b }
{}
