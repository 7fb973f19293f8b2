//! Laws of the commands' names, over their definitions alone.

ghost use Rattle.std.specs.Prelude.{◌≡◌, ℕ, List, Some, true};
ghost use Rattle.commands.specs.declared.name.CommandName.{CommandName};
ghost use Rattle.commands.specs.Names.{covers, name_of, needs_of, uses_of, word_of};

/// Each command's word is read as that command, and no other text is.
pub fn words_are_read()
    ensures read { (name : CommandName) → name_of (word_of name) ≡ Some name }
    ensures only { (text : List ℕ) (name : CommandName) → name_of text ≡ Some name
        → text ≡ word_of name }
{}

/// Each key that a command needs it uses.
pub fn needed_keys_are_used()
    ensures { (name : CommandName) → covers (uses_of name) (needs_of name) ≡ true }
{}
