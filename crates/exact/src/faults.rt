// Which refusal a file gets: exactly its first fault, and a file is refused exactly when it spells nothing. No code.
