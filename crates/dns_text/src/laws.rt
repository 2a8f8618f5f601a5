//! Theorems about the definitions of this crate, as functions with empty bodies.

ghost use Rattle.std.specs.Prelude.{◌≡◌, ◌<◌, ◌^◌, ◌++◌, [], ◌∷◌, ℕ, false, List, Result, Ok, Err, Option, Some, None, length, decimal};
ghost use Rattle.std.specs.List.{AllByRecursion};
ghost use Rattle.std.specs.Net.Addr.{IsIpv4Addr, IsIpv6Addr, MatchIp};
ghost use Rattle.std.specs.Net.Grammar.{IsIpText};
ghost use Rattle.std.specs.declared.net.ip_addr.IpAddr.{IpAddr};
ghost use Rattle.dns_text.specs.Address.{IsTextOf, ip_text};
ghost use Rattle.dns_text.specs.declared.error.LexerError.{LexerError};
ghost use Rattle.dns_text.specs.declared.quotes.Quotes.{Quotes};
ghost use Rattle.dns_names.specs.Name.{DomainName};
ghost use Rattle.dns_names.specs.Print.{AreOctets, text_of_name};
ghost use Rattle.dns_text.specs.CharacterString.{unescaped, escaped_text};
ghost use Rattle.dns_text.specs.Front.{front};
ghost use Rattle.dns_text.specs.Lexer.{LexerState, Lexeme, CharData, QuotedString, NextToken};
ghost use Rattle.dns_text.specs.FrontGrammar.{FrontItem, IsInFront, front_item};
ghost use Rattle.dns_text.specs.Tokens.{LexesTo, IsDatum, data_text};
ghost use Rattle.dns_text.specs.Ttl.{time};

/// By the grammar a text begins with exactly one item, and `front` finds it (RFC 1035 section 5.1).
pub fn lexing_is_unambiguous()
    ensures stands { (quotes : Quotes) (text : List ℕ)
        → IsInFront quotes text (front_item (front quotes text) text) }
    ensures one { (quotes : Quotes) (text : List ℕ) (a b : FrontItem) → IsInFront quotes text a
        → IsInFront quotes text b → a ≡ b }
{}

/// Each token consumes part of the text, so lexing ends.
pub fn each_token_consumes_text()
    ensures { (p next : LexerState) (token : Lexeme) → NextToken p (Ok (Some token)) next
        → length next.text < length p.text }
{}

/// Lexing has one outcome, and repeats the end of the text or the first fault on each further call.
pub fn lexing_is_deterministic()
    ensures same { (p q r : LexerState) (a b : Result (Option Lexeme) LexerError) → NextToken p a q
        → NextToken p b r → (a ≡ b) × (q ≡ r) }
    ensures end_stays { (p end : LexerState) → NextToken p (Ok None) end
        → NextToken end (Ok None) end }
    ensures fault_stays { (p end : LexerState) (error : LexerError) → NextToken p (Err error) end
        → NextToken end (Err error) end }
{}

/// A nonempty prefix of a time is a time. So a nonempty text that is not a time is the beginning of none.
pub fn prefixes_of_times_are_times()
    ensures { (read rest : List ℕ) → 0 < length read → time read ≡ None
        → time (read ++ rest) ≡ None }
{}

/// The text of an address spells this address, and parses back to it.
pub fn printed_addresses_parse_back()
    ensures spells { (a : IpAddr) → MatchIp a IsIpv4Addr IsIpv6Addr → IsIpText (ip_text a) a }
    ensures parses { (a : IpAddr) (found : Option IpAddr) → MatchIp a IsIpv4Addr IsIpv6Addr
        → IsTextOf (ip_text a) found → found ≡ Some a }
{}

/// The text of a quoted string denotes the octets of the string, whatever they are (RFC 1035 section 5.1).
pub fn quoted_strings_parse_back()
    ensures { (octets : List ℕ) → AreOctets octets
        → unescaped (escaped_text octets) ≡ Some octets }
{}

/// Words and quoted strings that are joined by blanks lex back to themselves, to the end of the text. A word is neither `@`
/// nor a directive here.
pub fn printed_tokens_lex_back()
    ensures { (p : LexerState) (datum : Lexeme) (more : List Lexeme)
        → AllByRecursion IsDatum (datum ∷ more) → p.is_open ≡ false
        → p.text ≡ data_text (datum ∷ more)
        → LexesTo p (datum ∷ more) (record p { text = []; is_front = false }) }
{}

/// Printed names, decimal numbers, addresses and quoted strings are data of an entry: each lexes back to one token.
pub fn printed_values_are_data()
    ensures name { (name : DomainName) → AllByRecursion AreOctets name.labels
        → 0 < length (text_of_name name) → IsDatum (CharData (text_of_name name)) }
    ensures number { (n : ℕ) → n < 2 ^ 64 → IsDatum (CharData (decimal n)) }
    ensures address { (a : IpAddr) → MatchIp a IsIpv4Addr IsIpv6Addr
        → IsDatum (CharData (ip_text a)) }
    ensures string { (octets : List ℕ) → AreOctets octets
        → IsDatum (QuotedString (escaped_text octets)) }
{}
